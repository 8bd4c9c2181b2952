// The symbols that are marked.
ghost use Rattle.std.specs.Prelude.{ℕ, suc, ◌≤◌, ◌<◌, ◌↔◌, IsTrue};
ghost use Rattle.in_symbols.specs.Tables.{IsSymbol, arity_of};
ghost use Rattle.in_net.specs.Nets.{signature_of};
ghost use Rattle.in_overwriting.specs.Flag.{AreMarkedPlaces, IsMarkedAt, IsMarkedSymbol};

use in_symbols::Symbols;
use in_syntax::SymbolNo;

/// Whether two auxiliary ports are of one class, and their types have one name and opposite signs.
fn are_marked(symbols: &Symbols, symbol: SymbolNo, first: u8, second: u8) -> bool
    requires symbol { IsSymbol symbols.now symbol.0 }
    requires first { first ≤ arity_of symbols.now symbol.0 }
    requires second { second ≤ arity_of symbols.now symbol.0 }
    ensures { IsTrue result ↔ AreMarkedPlaces (signature_of symbols.now) symbol.0 first second }
{
    let one = symbols.port(symbol, first);
    let other = symbols.port(symbol, second);
    symbols.class_of(symbol, first) == symbols.class_of(symbol, second)
        && other.kind == one.kind
        && other.output != one.output
}

/// Whether the auxiliary port after the `first` ones before it has another one with which it is marked.
fn is_marked_with(symbols: &Symbols, symbol: SymbolNo, first: u8) -> bool
    requires symbol { IsSymbol symbols.now symbol.0 }
    requires first { first < arity_of symbols.now symbol.0 }
    ensures { IsTrue result ↔ ((j : ℕ) × IsMarkedAt (signature_of symbols.now) symbol.0 first j) }
{
    let arity = symbols.arity(symbol);
    for second in 0..arity {
        if are_marked(symbols, symbol, first + 1, second + 1) {
            return true;
        }
    }
    false
}

/// Whether a symbol is marked: two of its auxiliary ports are of one class, and their types have one name and opposite signs. A wire may then
/// join these two of one agent, so that an interaction with it can't overwrite partners in place. The time is quadratic in the arity, and no
/// memory is taken. The rule is this project's own choice.
pub fn is_marked(symbols: &Symbols, symbol: SymbolNo) -> bool
    requires { IsSymbol symbols.now symbol.0 }
    ensures { IsTrue result ↔ IsMarkedSymbol (signature_of symbols.now) symbol.0 }
{
    for first in 0..symbols.arity(symbol) {
        if is_marked_with(symbols, symbol, first) {
            return true;
        }
    }
    false
}
