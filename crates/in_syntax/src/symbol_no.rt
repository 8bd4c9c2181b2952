/// The number of a symbol, from 0 in the order of declaration.
#[derive(Clone, Copy, Debug, PartialEq, Eq)]
pub struct SymbolNo(pub u32);
