// Watchers of a run.
use in_machine::Need;

/// The progress of a run.
#[derive(Clone, Copy, Debug, PartialEq, Eq)]
pub struct Progress {
    /// The number of interactions that were done.
    pub interactions: u64,
    /// The number of phases, in which several threads reduced the net in parts.
    pub phases: u64,
    /// The most threads of a phase; 1 if there was none.
    pub threads: u32,
    /// The number of cells of each class that agents have now.
    pub used: Need,
}

/// A watcher of a run, which it doesn't change.
pub trait Watch {
    /// A run begins: its program is checked.
    fn begin(&mut self);

    /// The most interactions of one worker before the watch looks again; 0 means 1.
    fn turn(&self) -> u64;

    /// Gets the progress of a run that continues.
    fn look(&mut self, progress: Progress);

    /// The run has stopped.
    fn end(&mut self, progress: Progress);
}

/// The watch that sees nothing.
#[derive(Clone, Copy, Debug)]
pub struct NoWatch;

impl Watch for NoWatch {
    fn begin(&mut self) {}

    fn turn(&self) -> u64 {
        u64::MAX
    }

    fn look(&mut self, _progress: Progress) {}

    fn end(&mut self, _progress: Progress) {}
}
