ghost use Rattle.std.specs.Prelude.{◌≡◌, ◌≤◌};
ghost use Rattle.in_limits.specs.Limiting.{AreAllowed, HasLeast, most_interactions, most_workers};

use in_arena::CellCounts;

/// The least cells of each class that a run has.
pub const LEAST_CELLS: u32 = 16;

/// The most cells of each class that a run has, where it has as many of each. `CellCounts::MOST` has the most of a class by itself.
pub const MOST_CELLS: u32 = 1_048_576;

/// The most workers that a run may have.
pub const MOST_WORKERS: u32 = 64;

/// The most interactions that a run may be allowed.
pub const MOST_INTERACTIONS: u64 = 1_000_000_000_000;

/// The number of a run's workers, of the interactions that it may do, and of its machine's cells of each class.
#[derive(Clone, Copy, Debug, PartialEq, Eq)]
pub struct Limits {
    workers: u32,
    limit: u64,
    cells: CellCounts,
    ghost some_worker: { 1 ≤ workers },
    ghost few_workers: { workers ≤ most_workers },
    ghost limit_in_range: { limit ≤ most_interactions },
    ghost least: { HasLeast cells },
    ghost most: { AreAllowed cells },
}

impl Limits {
    ghost use Rattle.in_limits.specs.AllowedLimits.{AreLimits, AreLimitsOf};

    /// These limits, with that many cells of each class; `None` if one of them is out of range: 1 to 64 workers, 0 to 1,000,000,000,000
    /// interactions and 16 to 1,048,576 cells, which is this project's own choice.
    pub fn new(workers: u32, limit: u64, cells: u32) -> Option<Limits>
        ensures { AreLimits workers limit cells result }
    {
        if cells > MOST_CELLS {
            return None;
        }
        Limits::with_counts(workers, limit, CellCounts::each(cells))
    }

    /// These limits; `None` if one of them is out of range: 1 to 64 workers, 0 to 1,000,000,000,000 interactions, 16 to 16,777,216 small cells, and
    /// 16 to 8,388,608 large and wide ones, which is this project's own choice.
    pub fn with_counts(workers: u32, limit: u64, cells: CellCounts) -> Option<Limits>
        ensures { AreLimitsOf workers limit cells result }
    {
        let has_workers = 1 <= workers && workers <= MOST_WORKERS;
        let has_least = LEAST_CELLS <= cells.small_cells
            && LEAST_CELLS <= cells.large_cells
            && LEAST_CELLS <= cells.wide_cells;
        if has_workers && limit <= MOST_INTERACTIONS && has_least && cells.are_allowed() {
            Some(Limits {
                workers,
                limit,
                cells,
            })
        } else {
            None
        }
    }

    /// The number of workers.
    pub fn workers(&self) -> u32
        ensures workers { result ≡ self.now.workers }
        ensures some { 1 ≤ result }
        ensures few { result ≤ most_workers }
    {
        self.workers
    }

    /// The most interactions.
    pub fn limit(&self) -> u64
        ensures limit { result ≡ self.now.limit }
        ensures most { result ≤ most_interactions }
    {
        self.limit
    }

    /// The number of cells of each class.
    pub fn cells(&self) -> CellCounts
        ensures cells { result ≡ self.now.cells }
        ensures least { HasLeast result }
        ensures most { AreAllowed result }
    {
        self.cells
    }
}
