//! A message on its way to the pipes.

use fsw_base::AppNo;

/// A message on its way to the pipes.
#[derive(Clone, Copy, Debug, PartialEq, Eq)]
pub struct Message {
    /// The application that sends it.
    pub sender: AppNo,
    /// The number of its send.
    pub number: u64,
    /// The descriptor of its buffer, which each pipe that takes it keeps.
    pub desc: u32,
}
