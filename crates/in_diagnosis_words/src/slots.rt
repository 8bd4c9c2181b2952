//! The values of a sentence's slots.
use crate::ends::Giving;
use in_syntax::{Place, SourcePort, SourceSymbol};

/// The value of a slot of a sentence.
#[derive(Clone, Copy)]
pub enum Value<'v> {
    /// A text, as it is.
    Text(&'v str),
    /// A number.
    Number(usize),
    /// A number, and the words after it for one and for several.
    Count(usize, &'static str, &'static str),
    /// A character.
    Character(char),
    /// The number of a character, as `U+00AD`.
    Code(char),
    /// A byte, as `0xff`.
    Byte(u8),
    /// The type of a port with its sign, as `nat+`.
    Type(&'v SourcePort),
    /// The port of that number of a symbol, as "auxiliary port 2 of `Add`".
    Port(&'v SourceSymbol, usize),
    /// Letters from that of the first number on, as many as the second number, as `a, b, c`.
    Letters(usize, usize),
    /// The ports of a symbol that are outputs of a type.
    Outputs(Giving<'v>),
    /// The letters of these ports.
    OutputLetters(Giving<'v>),
    /// A place, as `12:15`.
    Spot(Place),
}

/// The name of a slot, and its value.
pub type Slot<'v> = (&'static str, Value<'v>);

/// The value of the slot of this name.
pub(crate) fn value_of<'v>(slots: &[Slot<'v>], name: &str) -> Option<Value<'v>> {
    for (slot, value) in slots {
        if *slot == name {
            return Some(*value);
        }
    }
    None
}
