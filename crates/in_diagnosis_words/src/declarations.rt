//! The declarations of a program.
use in_syntax::{Name, Place, Source, SourceClass, SourceFree, SourcePort, SourceSymbol};

/// A declaration of a name: a type, a symbol or a free end.
pub(crate) trait Declared {
    /// Its name.
    fn name(&self) -> &Name;
}

impl Declared for Name {
    fn name(&self) -> &Name {
        self
    }
}

impl Declared for SourceSymbol {
    fn name(&self) -> &Name {
        &self.name
    }
}

impl Declared for SourceFree {
    fn name(&self) -> &Name {
        &self.name
    }
}

/// Whether a name has this text.
pub(crate) fn is_named(name: &Name, text: &str) -> bool {
    name.text.as_str() == text
}

/// Whether two names have one text.
pub(crate) fn are_one(name: &Name, other: &Name) -> bool {
    is_named(name, other.text.as_str())
}

/// The first of these names that has this text.
pub(crate) fn first_of<'a, D: Declared>(declared: &'a [D], text: &str) -> Option<&'a Name> {
    for one in declared {
        let name = one.name();
        if is_named(name, text) {
            return Some(name);
        }
    }
    None
}

/// Whether one of these names is at this place.
pub(crate) fn is_among<D: Declared>(declared: &[D], place: Place) -> bool {
    for one in declared {
        if one.name().place.from == place.from {
            return true;
        }
    }
    false
}

/// The first symbol of this name.
pub(crate) fn symbol_named<'a>(source: &'a Source, text: &str) -> Option<&'a SourceSymbol> {
    for symbol in source.symbols.as_slice() {
        if is_named(&symbol.name, text) {
            return Some(symbol);
        }
    }
    None
}

/// The number of auxiliary ports of a symbol.
pub(crate) fn arity(symbol: &SourceSymbol) -> usize {
    let mut arity: usize = 0;
    for class in symbol.classes.as_slice() {
        arity = arity.saturating_add(class.len());
    }
    arity
}

/// The class of the port of a symbol at a place, and the port: place 0 is the principal port, in class 0; the auxiliary ports follow, class
/// by class, from place 1 and class 1 on. `None` if the symbol has no such place.
pub fn port(symbol: &SourceSymbol, place: usize) -> Option<(usize, &SourcePort)> {
    if place == 0 {
        return Some((0, &symbol.port));
    }
    let mut left = place - 1;
    for (index, class) in symbol.classes.as_slice().iter().enumerate() {
        match port_of(class, left) {
            Some(port) => return Some((index + 1, port)),
            None => left = left.saturating_sub(class.len()),
        }
    }
    None
}

fn port_of(class: &SourceClass, number: usize) -> Option<&SourcePort> {
    class.as_slice().get(number)
}

/// The place of the port of that number, from 0, in a class, counted from 1.
pub(crate) fn place_in(symbol: &SourceSymbol, class: usize, number: usize) -> usize {
    let mut place = number.saturating_add(1);
    for (index, before) in symbol.classes.as_slice().iter().enumerate() {
        if index + 1 < class {
            place = place.saturating_add(before.len());
        }
    }
    place
}

/// The sign of a port's type.
pub(crate) fn sign(port: &SourcePort) -> &'static str {
    if port.output { "+" } else { "-" }
}
