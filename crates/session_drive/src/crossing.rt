//! That threads may hand drivers and fillers on, and share them.

use crate::fillers::{GatedStep, Step};
use crate::remembering::Remembering;
use mon_io::Gate;

/// Takes a type whose values threads may hand on and share.
fn crosses<T: Send + Sync>() {}

/// Steps are such a type.
fn step_crosses() {
    crosses::<Step>();
}

/// Steps behind a gate are.
fn gated_step_crosses<'g, G: Gate + 'g>() {
    crosses::<GatedStep<'g, G>>();
}

/// Drivers with a memo are.
fn remembering_crosses() {
    crosses::<Remembering<Step>>();
}
