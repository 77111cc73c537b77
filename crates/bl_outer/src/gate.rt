//! The gate that workers pass.

/// A moment at which a worker passes the gate.
#[derive(Clone, Copy, Debug, PartialEq, Eq)]
pub enum Stage {
    /// The worker has claimed a node.
    Claimed,
    /// The worker is about to close its node.
    Closing,
}

/// Where workers pass by, so that a test can hold them up. It has no effect on any answer.
pub trait Gate {
    fn at(&self, worker: u32, stage: Stage);
}

/// The gate that holds nobody up.
#[derive(Clone, Copy, Debug)]
pub struct NoGate;

impl Gate for NoGate {
    fn at(&self, _worker: u32, _stage: Stage) {}
}
