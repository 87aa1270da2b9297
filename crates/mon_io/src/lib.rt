//! What a run reads from and writes to.
#![tactic(auto)]

mod calls;
mod gate;
mod memory;
mod memory_shelf;
mod shelf;
mod sink;
mod source;
mod standard;
mod sure;

pub use gate::{Gate, NoGate};
pub use memory::{MemSink, MemSource};
pub use memory_shelf::MemShelf;
pub use shelf::{Shelf, ShelfFault};
pub use sink::{Sink, SinkFault};
pub use source::{Failed, Source};
pub use standard::{FileShelf, StdSink, StdSource};
pub use sure::{SureSink, SureSource};

#[cfg(test)]
mod tests;
