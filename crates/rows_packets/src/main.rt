//! Prints packets made by `ccsds_msg`, one a line in hexadecimal, so that another reader of the
//! standard can be asked what it sees in them.
//!
//! For each message id of the table, for each of four sizes, there are three packets, with the
//! sequence counts 0, 1 and 16383. Each byte behind a header is 0x5A.
#![tactic(auto)]

mod table;

use std::io;

fn main(rt: HostRuntime) -> io::Result<()> {
    for id in &table::IDS {
        table::print_counts(&rt, rt.alloc(), *id, &mut [0x5A; 7])?;
        table::print_counts(&rt, rt.alloc(), *id, &mut [0x5A; 8])?;
        table::print_counts(&rt, rt.alloc(), *id, &mut [0x5A; 64])?;
        table::print_counts(&rt, rt.alloc(), *id, &mut [0x5A; 300])?;
    }
    Ok(())
}
