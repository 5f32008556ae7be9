//! Who is told of the steps of workers.

/// Is told of each step that a worker takes on a fabric. What it does has no meaning for the result.
///
/// It is called in the threads of the workers, right after each step: a gate that holds a call back holds back that
/// worker.
pub trait Gate: Sync {
    /// Tells of a step: its worker, from 0, and how many steps that worker has taken on fabrics since the call of
    /// `work` or `work_kept` began, this one among them.
    fn fired(&self, worker: u32, count: u64);
}

/// A gate that does nothing.
#[derive(Clone, Copy)]
pub struct OpenGate;

impl Gate for OpenGate {
    fn fired(&self, _worker: u32, _count: u64) {}
}
