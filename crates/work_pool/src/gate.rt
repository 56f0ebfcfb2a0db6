//! What a worker tells of its claims. It is for tests, which hold workers or note what they do.

/// Is told of each claim.
pub trait Gate {
    /// Called by the worker of this number once it has claimed the function, before it makes the
    /// function's output. It promises nothing, and changes nothing of the run.
    fn at(&self, worker: u32, function: u32);
}

/// Lets each worker go on at once.
#[derive(Clone, Copy, Debug, Drop)]
pub struct FreeGate;

impl Gate for FreeGate {
    fn at(&self, _worker: u32, _function: u32) {}
}
