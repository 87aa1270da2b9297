//! What makes the outcome of a gap.

use gap_keys::{Key, Outcome};
use live_session::GapRelation;
use mon_io::Gate;
use sample_succ::step;
use std::alloc::{AllocError, Global};
use succ_memo::Fill;

/// Makes each outcome by a step over the gap.
#[derive(Drop)]
pub struct Step;

impl Fill<GapRelation> for Step {
    fn answer(&self, alloc: Global, key: &Key) -> Result<Outcome, AllocError> {
        step(alloc, key)
    }
}

/// Passes a gate once for each outcome, and then makes it by a step over the gap.
#[derive(Drop)]
pub struct GatedStep<'g, G: Gate> {
    gate: &'g G,
}

impl<'g, G: Gate> GatedStep<'g, G> {
    /// A step behind this gate. Takes no memory.
    pub fn new(gate: &'g G) -> GatedStep<'g, G> {
        GatedStep { gate }
    }
}

impl<'g, G: Gate> Fill<GapRelation> for GatedStep<'g, G> {
    fn answer(&self, alloc: Global, key: &Key) -> Result<Outcome, AllocError> {
        self.gate.pass();
        step(alloc, key)
    }
}
