//! Where tests hold workers.

/// Something that a worker passes after it drew a task and before it begins the query.
///
/// No contract knows of it: a gate can hold a worker for a while, and change nothing else.
pub trait Gate {
    /// Called by the worker of this number with the number of the task that it drew.
    fn pass(&self, worker: u32, task: u64);
}

/// A gate that holds nobody.
#[derive(Clone, Copy, Default)]
pub struct OpenGate;

impl Gate for OpenGate {
    fn pass(&self, _worker: u32, _task: u64) {}
}
