//! Where a worker can be held up, so that tests can choose which one is ahead.

/// A worker passes its gate before and after its task. What is proved holds whatever a gate does, as long as it lets
/// the worker go on.
pub trait Gate: Sync {
    /// Called by the worker itself: at step 0 before its task, and at step 1 after it.
    fn at(&self, worker: u32, step: u32);
}

/// Holds nobody up.
#[derive(Clone, Copy, Debug)]
pub struct OpenGate;

impl Gate for OpenGate {
    fn at(&self, _worker: u32, _step: u32) {}
}
