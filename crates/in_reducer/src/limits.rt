// Limits of reducers.

/// The most free ends that a reducer's net has.
pub const MOST_FREE_ENDS: u32 = 65_536;

/// The most boundary ends that a rule has.
pub(crate) const MOST_ENDS: usize = 32;
