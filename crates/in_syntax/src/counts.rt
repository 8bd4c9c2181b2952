use crate::text_limits::TextLimits;

/// How many types, symbols and rules a program declares before an item, and its limits.
#[derive(Clone, Copy)]
pub struct Counts {
    pub limits: TextLimits,
    pub types: usize,
    pub symbols: usize,
    pub rules: usize,
}
