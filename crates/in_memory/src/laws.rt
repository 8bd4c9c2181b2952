// Laws on a row that is parted among owners.
ghost use Rattle.in_memory.specs.Splitting.{PartsAreAll, WrittenInPartIsWritten};

/// If cells are parted between two owners and joined again, by either one, they are those of the first owner.
pub fn parts_are_all<T>()
    ensures { PartsAreAll T }
{}

/// A cell that an owner writes in its part is written in the whole, once the part is joined again.
pub fn written_in_part_is_written<T>()
    ensures { WrittenInPartIsWritten T }
{}
