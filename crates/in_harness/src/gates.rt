//! A gate that holds jobs back.
use in_rounds::Gate;
use std::sync::atomic::{AtomicU64, Ordering};

/// The most turns for which a job is held.
const TURNS: u32 = 1_000_000_000;

/// Holds each of the first `jobs` jobs, at most 64, until the others were reached too, so one thread alone can't pass. After `TURNS` turns it gives
/// up, and notes that.
#[derive(Drop)]
pub struct Together {
    jobs: u32,
    reached: AtomicU64,
    gave_up: AtomicU64,
}

impl Together {
    /// A gate for `jobs` jobs. For one job it is open.
    pub fn of(jobs: u32) -> Together {
        Together {
            jobs,
            reached: AtomicU64::new(0),
            gave_up: AtomicU64::new(0),
        }
    }

    /// The number of jobs reached.
    pub fn reached(&self) -> u64 {
        self.reached.load(Ordering::SeqCst)
    }

    /// The number of times that it gave up.
    pub fn gave_up(&self) -> u64 {
        self.gave_up.load(Ordering::SeqCst)
    }
}

impl Gate for Together {
    fn reached(&self, _job: u32) {
        self.reached.fetch_add(1, Ordering::SeqCst);
        for _turn in 0..TURNS {
            if self.reached.load(Ordering::SeqCst) >= u64::from(self.jobs) {
                return;
            }
        }
        self.gave_up.fetch_add(1, Ordering::SeqCst);
    }
}
