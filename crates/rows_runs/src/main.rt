//! Runs the cases of a list, each by `serve` of `host_serve`, and prints how each ends and what it
//! writes, so that an executable model can be asked the same.
//!
//! The list has the form of the files of `corpus/`, without answers: `== ` begins a case and gives
//! its name, `$` gives its words, which are `lockstep` if it is left out, and `|` begins a line of
//! its input. What is printed has that form too, without words and inputs. Of a text of more than
//! 4096 bytes its size and a sum are printed behind the status, and nothing else.
#![tactic(auto)]

mod answer;
mod case;
mod spelling;

use crate::answer::answer_of;
use crate::case::Case;
use std::io;
use std::io::{Read, Write};

fn main(rt: HostRuntime) -> io::Result<()> {
    let mut list = Vec::new(rt.alloc());
    rt.stdin().read_to_end(&mut list)?;
    let mut case = Case::new(rt.alloc(), b"");
    for line in list.as_slice().split(|&byte| byte == b'\n') {
        match line {
            [b'=', b'=', b' ', name @ ..] => {
                let answer = answer_of(&rt, rt.alloc(), &case)?;
                rt.stdout().write_all(answer.as_slice())?;
                case = Case::new(rt.alloc(), name);
            }
            _ => case.add(line)?,
        }
    }
    let answer = answer_of(&rt, rt.alloc(), &case)?;
    rt.stdout().write_all(answer.as_slice())
}
