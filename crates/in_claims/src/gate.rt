// The gate that a worker passes between a claim and the work on it.

/// A gate that each worker passes after it has claimed a job, before it works on it.
pub trait Gate {
    /// Called with the job that was just claimed.
    fn reached(&self, job: u32);
}

/// The open gate: it returns at once.
#[derive(Clone, Copy, Debug)]
pub struct NoGate;

impl Gate for NoGate {
    fn reached(&self, _job: u32) {}
}
