//! The gate, as the applications of side 2 meet it.

use bridge_plan::gate_number;
use fsw_base::{AppNo, Gate};

// The side whose applications meet it.
const SIDE: u32 = 2;

/// A gate that knows the applications of side 2 under their numbers and 16 more.
#[derive(Drop)]
pub(crate) struct GateOfTwo<'g, G> {
    /// The gate of both sides.
    pub(crate) gate: &'g G,
}

impl<'g, G: Gate> Gate for GateOfTwo<'g, G> {
    fn before(&self, app: u32, call: u32) {
        if let Some(app) = AppNo::try_new(app) {
            self.gate.before(gate_number(SIDE, app), call);
        }
    }

    fn after(&self, app: u32, call: u32) {
        if let Some(app) = AppNo::try_new(app) {
            self.gate.after(gate_number(SIDE, app), call);
        }
    }
}
