//! Laws on limits. The functions here do nothing.

ghost use Rattle.in_limits.specs.Laws.{LimitsAreOne, LimitsOfCellsAreOne};

/// The numbers of workers, interactions and cells have one answer by `Limits::new`: the same limits, or none.
pub fn limits_are_one()
    ensures { LimitsAreOne }
{}

/// The numbers of workers, interactions and cells of each class have one answer by `Limits::with_counts`: the same limits, or none.
pub fn limits_of_cells_are_one()
    ensures { LimitsOfCellsAreOne }
{}
