//! An application's registers of what the bus numbers.
ghost use Rattle.std.specs.Prelude.{◌≡◌, slice_index, slice_set};
ghost use Rattle.script_runs.specs.Trace.{number_of, first_registers, registers_after};

use bus_words::BusAnswer;
use script_lines::{Line, REGISTERS};
use std::marker::Model;

// How many registers of pools an application has; of pipes, of buffers and of grants it has
// `REGISTERS` each.
const POOL_REGISTERS: usize = 8;

/// An application's registers of what the bus numbers, which hold what its calls answered.
pub struct Registers {
    // Of pipes, `p0` to `p63`.
    pipes: [u32; REGISTERS],
    // Of unsent buffers, `b0` to `b63`.
    buffers: [u32; REGISTERS],
    // Of memory pools, `q0` to `q7`.
    pools: [u32; POOL_REGISTERS],
    // Of the pools' grants, `m0` to `m63`.
    grants: [u32; REGISTERS],
}

impl Drop for Registers {
    fn drop(self) {
        let Registers {
            pipes: _pipes,
            buffers: _buffers,
            pools: _pools,
            grants: _grants,
        } = self;
    }
}

impl Model for Registers {
    ghost use Rattle.script_runs.specs.Trace.{Registers};

    ghost Value = { Registers };

    ghost view = { λ r.
        record { pipes = r.pipes; buffers = r.buffers; pools = r.pools; grants = r.grants } };
}

impl Registers {
    /// Before the first line all are 0.
    pub fn new() -> Registers
        ensures { result ≡ first_registers }
    {
        Registers {
            pipes: [0; REGISTERS],
            buffers: [0; REGISTERS],
            pools: [0; POOL_REGISTERS],
            grants: [0; REGISTERS],
        }
    }

    /// The number in a register of pipes; 0 if there is no such register.
    #[inline]
    pub fn pipe(&self, register: u32) -> u32
        ensures { result ≡ slice_index self.now.pipes register }
    {
        value_in(&self.pipes, register)
    }

    /// The number in a register of buffers; 0 if there is no such register.
    #[inline]
    pub fn buffer(&self, register: u32) -> u32
        ensures { result ≡ slice_index self.now.buffers register }
    {
        value_in(&self.buffers, register)
    }

    /// The number in a register of pools; 0 if there is no such register.
    #[inline]
    pub fn pool(&self, register: u32) -> u32
        ensures { result ≡ slice_index self.now.pools register }
    {
        value_in(&self.pools, register)
    }

    /// The number in a register of grants; 0 if there is no such register.
    #[inline]
    pub fn grant(&self, register: u32) -> u32
        ensures { result ≡ slice_index self.now.grants register }
    {
        value_in(&self.grants, register)
    }

    /// Notes what a line's call was answered.
    #[inline]
    #[tactic(auto, unfolding(script_runs::specs::Trace::registers_after))]
    pub fn note(&mut self, line: &Line, answer: &BusAnswer)
        ensures { self.new ≡ registers_after self.old line.now answer.now }
    {
        match line {
            Line::Create { pipe, .. } => set(&mut self.pipes, *pipe, number_of(answer)),
            Line::Find { pipe, .. } => set(&mut self.pipes, *pipe, number_of(answer)),
            Line::Allocate { buf, .. } => set(&mut self.buffers, *buf, number_of(answer)),
            Line::PoolCreate { pool, .. } => set(&mut self.pools, *pool, number_of(answer)),
            Line::PoolGet { grant, .. } => set(&mut self.grants, *grant, number_of(answer)),
            _ => {}
        }
    }
}

/// The number at a place; 0 if there is no such place.
#[inline]
pub(crate) fn value_in(numbers: &[u32], place: u32) -> u32
    ensures { result ≡ slice_index numbers.now place }
{
    match numbers.get(place as usize) {
        Some(number) => *number,
        None => 0,
    }
}

/// Puts a number at a place, if there is that place.
#[inline]
pub(crate) fn set(numbers: &mut [u32], place: u32, number: u32)
    ensures { numbers.new ≡ slice_set numbers.old place number }
{
    if (place as usize) < numbers.len() {
        numbers[place as usize] = number;
    }
}

// The number of a successful answer, 0 of a refusal.
#[inline]
fn number_of(answer: &BusAnswer) -> u32
    ensures { result ≡ number_of answer.now }
{
    match answer {
        BusAnswer::Number(number) => *number,
        _ => 0,
    }
}
