// What work on other threads passes.

/// A place that work on any thread passes. What it does there is said by no clause.
pub trait Gate: Sync {
    fn pass(&self);
}

/// A gate at which nothing is done.
#[derive(Clone, Copy, Debug, PartialEq, Eq)]
pub struct NoGate;

impl Gate for NoGate {
    fn pass(&self) {}
}
