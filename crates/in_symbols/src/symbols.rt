ghost use Rattle.std.specs.Prelude.{◌≡◌, ◌≤◌, ◌<◌, length, map, None, Some};
ghost use Rattle.in_syntax.specs.Grammar.{max_ports};
ghost use Rattle.in_syntax.specs.Parsing.{IsOfText};
ghost use Rattle.in_symbols.specs.Names.{name_in};
ghost use Rattle.in_symbols.specs.Searching.{declares_all, first_fault, undeclared};
ghost use Rattle.in_symbols.specs.Tables.{place_of, IsSymbol, arity_of, port_at, class_at, classes_of, is_constructor, matching, symbol_numbered, Knows, port_of, Tabulates};

use crate::declaring::Declared;
use crate::names::Names;
use crate::searching::first_fault;
use crate::{declaring, tables};
use in_syntax::{Fault, Place, Source, SourcePort, SymbolNo};
use sqlite_items::Items;
use std::alloc::Global;
use std::marker::Model;

/// The type of a port: the number of its type, and whether it is an output. Lafont 1990 gives each port of a symbol a type
/// with a sign, input or output.
#[derive(Clone, Copy, Debug, PartialEq, Eq)]
pub struct PortType {
    pub kind: u32,
    pub output: bool,
}

/// The declaration of a symbol: the types and classes of its places, the principal port being place 0 and a class by itself.
#[derive(Drop)]
pub(crate) struct Shape {
    pub(crate) place: Place,
    pub(crate) ports: Items<PortType>,
    pub(crate) classes: Items<u8>,
    pub(crate) class_count: u8,
}

/// The types and symbols of a program, each numbered from 0 in the order of declaration.
pub struct Symbols {
    types: Names,
    names: Names,
    shapes: Items<Shape>,
}

// By hand, so that each drop is a call, as with `Names`.
impl Drop for Symbols {
    fn drop(self) {
        let Symbols {
            types: _,
            names: _,
            shapes: _,
        } = self;
    }
}

// Contracts see the declarations, symbol by symbol.
impl Model for Symbols {
    ghost use Rattle.in_symbols.specs.Tables.{Tables, AreShapes};
    ghost use Rattle.std.specs.Prelude.{◌≡◌, ◌<◌, ◌^◌, length};

    ghost Value = { Tables };

    ghost view = { λ s. record { types = s.types; names = s.names; shapes = s.shapes } };

    ghost invariant = { λ s. (length s.types < 2 ^ 32) × (length s.names < 2 ^ 32) × (length s.names ≡ length s.shapes) × AreShapes s.shapes };
}

impl Symbols {
    /// The tables of a program that `parse` returns for some text.
    ///
    /// Refused for the first fault of the names in the order of the text: E04 at the name of a type, symbol or free name that
    /// is declared twice in its namespace, at the later one, and at a free name that is a symbol's; E05 at an unknown type of a
    /// port or a free name; E06 at a name before `(` or `[` that is no symbol's. Or when out of memory. Lafont 1990 has the types of
    /// ports and the symbols of agents; the namespaces, the codes and the places are this project's own choice.
    pub fn build(alloc: Global, source: &Source) -> Result<Symbols, Fault>
        requires { IsOfText source.now }
        ensures { Tabulates source.now result }
    {
        let types = declaring::types_of(alloc, source)?;
        let symbols = declaring::symbols_of(alloc, source)?;
        match first_fault(alloc, source, &types, &symbols)? {
            Some(refusal) => Err(Fault::Refused(refusal)),
            None => Symbols::of_names(alloc, source, types, symbols),
        }
    }

    /// The tables of a program whose names have no fault.
    fn of_names(
        alloc: Global,
        source: &Source,
        types: Declared,
        symbols: Declared,
    ) -> Result<Symbols, Fault>
        requires text { IsOfText source.now }
        requires types { types ≡ declares_all undeclared source.now.types }
        requires symbols { symbols ≡ declares_all undeclared (map (λ s. s.name) source.now.symbols) }
        requires clear { None ≡ first_fault source.now types symbols }
        ensures { Tabulates source.now result }
    {
        let shapes = tables::shapes(alloc, source, &types.names)?;
        Ok(Symbols {
            types: types.names,
            names: symbols.names,
            shapes,
        })
    }

    /// The type of a port whose type is declared.
    pub fn port_type(&self, port: &SourcePort) -> PortType
        requires { Knows self.now.types port.now }
        ensures { result ≡ port_of self.now.types port.now }
    {
        tables::port_type(&self.types, port)
    }

    /// How many types are declared.
    pub fn types(&self) -> u32
        ensures { result ≡ length self.now.types }
    {
        self.types.len() as u32
    }

    /// The name of the type of this number.
    pub fn type_name(&self, kind: u32) -> &str
        requires { kind < length self.now.types }
        ensures { result.now ≡ name_in kind self.now.types }
    {
        self.types.name(kind as usize)
    }

    /// How many symbols are declared.
    pub fn symbols(&self) -> u32
        ensures { result ≡ length self.now.names }
    {
        self.names.len() as u32
    }

    /// The place at which the symbol is declared.
    pub fn place(&self, symbol: SymbolNo) -> Place
        requires { IsSymbol self.now symbol.0 }
        ensures { Some result ≡ place_of self.now symbol.0 }
    {
        self.shapes.as_slice()[symbol.0 as usize].place
    }

    /// How many auxiliary ports the symbol has.
    pub fn arity(&self, symbol: SymbolNo) -> u8
        requires { IsSymbol self.now symbol.0 }
        ensures arity { result ≡ arity_of self.now symbol.0 }
        ensures few { result ≤ max_ports }
    {
        let shape = &self.shapes.as_slice()[symbol.0 as usize];
        (shape.ports.len() - 1) as u8
    }

    /// The type of the port at a place; place 0 is the principal port.
    pub fn port(&self, symbol: SymbolNo, place: u8) -> PortType
        requires symbol { IsSymbol self.now symbol.0 }
        requires place { place ≤ arity_of self.now symbol.0 }
        ensures { result ≡ port_at self.now symbol.0 place }
    {
        let shape = &self.shapes.as_slice()[symbol.0 as usize];
        shape.ports.as_slice()[place as usize]
    }

    /// The class of the port at a place: 0 for the principal port; classes of auxiliary ports count from 1.
    pub fn class_of(&self, symbol: SymbolNo, place: u8) -> u8
        requires symbol { IsSymbol self.now symbol.0 }
        requires place { place ≤ arity_of self.now symbol.0 }
        ensures { result ≡ class_at self.now symbol.0 place }
    {
        let shape = &self.shapes.as_slice()[symbol.0 as usize];
        shape.classes.as_slice()[place as usize]
    }

    /// How many classes of auxiliary ports the symbol has.
    pub fn classes(&self, symbol: SymbolNo) -> u8
        requires { IsSymbol self.now symbol.0 }
        ensures { result ≡ classes_of self.now symbol.0 }
    {
        self.shapes.as_slice()[symbol.0 as usize].class_count
    }

    /// Whether the symbol's principal port is an output. Lafont 1990 calls such a symbol a constructor, and one whose
    /// principal port is an input a destructor.
    pub fn is_constructor(&self, symbol: SymbolNo) -> bool
        requires { IsSymbol self.now symbol.0 }
        ensures { result ≡ is_constructor self.now symbol.0 }
    {
        self.port(symbol, 0).output
    }

    /// Whether the two symbols match: one is a constructor, the other a destructor, and their principal types have one name
    /// (Lafont 1990). It doesn't matter which of them is the first.
    pub fn matching(&self, first: SymbolNo, second: SymbolNo) -> bool
        requires first { IsSymbol self.now first.0 }
        requires second { IsSymbol self.now second.0 }
        ensures { result ≡ matching self.now first.0 second.0 }
    {
        let one = self.port(first, 0);
        let other = self.port(second, 0);
        one.kind == other.kind && one.output != other.output
    }

    /// The symbol of that name, if there is one.
    pub fn number_of(&self, name: &str) -> Option<SymbolNo>
        ensures { result ≡ symbol_numbered self.now name.now }
    {
        match self.names.number_of(name) {
            Some(number) => Some(SymbolNo(number as u32)),
            None => None,
        }
    }

    /// The name of the symbol.
    pub fn name(&self, symbol: SymbolNo) -> &str
        requires { IsSymbol self.now symbol.0 }
        ensures { result.now ≡ name_in symbol.0 self.now.names }
    {
        self.names.name(symbol.0 as usize)
    }
}
