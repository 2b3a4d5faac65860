//! How large a line is: a script may have 20,000 of them.
use script_lines::Line;
use std::mem::size_of;
use std::test::Fail;

#[test]
fn line_takes_at_most_64_bytes(rt: HostRuntime) -> Result<(), Fail> {
    assert!(rt; size_of::<Line>() <= 64);
    Ok(())
}
