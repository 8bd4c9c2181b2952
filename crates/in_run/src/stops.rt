use in_arena::CellClass;

/// The stop of a run: no active pair is left; as many interactions were done as are allowed; or the first pair of the queue needs more
/// cells of a class than are free.
#[derive(Clone, Copy, Debug, PartialEq, Eq)]
pub enum Stop {
    Normal,
    Limit,
    Full {
        class: CellClass,
        need: u32,
        free: u32,
    },
}
