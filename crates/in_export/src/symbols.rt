ghost use Rattle.std.specs.Prelude.{◌≡◌, ◌≤◌, ◌++◌, OnOk};
ghost use Rattle.in_symbols.specs.Tables.{IsSymbol, arity_of};
ghost use Rattle.in_export.specs.Parts.{types_text, port_type_text, port_text, ports_text, symbol_text, symbols_text};

use crate::json::{add_bool, add_comma, add_key, add_name, add_number};
use in_symbols::{PortType, Symbols};
use in_syntax::SymbolNo;
use std::alloc::{AllocError, Global};

/// Adds the names of the types, as an array.
pub fn add_types(bytes: &mut Vec<u8>, symbols: &Symbols) -> Result<(), AllocError>
    ensures { OnOk result (bytes.new.items ≡ bytes.old.items ++ types_text symbols.now) }
{
    bytes.push(b'[')?;
    for kind in 0..symbols.types() {
        add_comma(bytes, kind as usize)?;
        add_name(bytes, symbols.type_name(kind))?;
    }
    bytes.push(b']')?;
    Ok(())
}

/// Adds a port's type and sign, as two members.
pub fn add_port_type(bytes: &mut Vec<u8>, alloc: Global, port: PortType) -> Result<(), AllocError>
    ensures { OnOk result (bytes.new.items ≡ bytes.old.items ++ port_type_text port) }
{
    let PortType { kind, output } = port;
    add_key(bytes, "type")?;
    add_number(bytes, alloc, kind)?;
    bytes.push(b',')?;
    add_key(bytes, "output")?;
    add_bool(bytes, output)
}

/// Adds the port of a symbol at a place.
fn add_port(
    bytes: &mut Vec<u8>,
    alloc: Global,
    symbols: &Symbols,
    symbol: SymbolNo,
    place: u8,
) -> Result<(), AllocError>
    requires symbol { IsSymbol symbols.now symbol.0 }
    requires place { place ≤ arity_of symbols.now symbol.0 }
    ensures { OnOk result (bytes.new.items ≡ bytes.old.items ++ port_text symbols.now symbol.0 place) }
{
    bytes.push(b'{')?;
    add_port_type(bytes, alloc, symbols.port(symbol, place))?;
    bytes.push(b',')?;
    add_key(bytes, "class")?;
    add_number(bytes, alloc, symbols.class_of(symbol, place) as u32)?;
    bytes.push(b'}')?;
    Ok(())
}

/// Adds the ports of a symbol, as an array.
fn add_ports(
    bytes: &mut Vec<u8>,
    alloc: Global,
    symbols: &Symbols,
    symbol: SymbolNo,
) -> Result<(), AllocError>
    requires { IsSymbol symbols.now symbol.0 }
    ensures { OnOk result (bytes.new.items ≡ bytes.old.items ++ ports_text symbols.now symbol.0) }
{
    let last = symbols.arity(symbol);
    bytes.push(b'[')?;
    for place in 0..last + 1 {
        add_comma(bytes, place as usize)?;
        add_port(bytes, alloc, symbols, symbol, place)?;
    }
    bytes.push(b']')?;
    Ok(())
}

/// Adds a symbol.
fn add_symbol(
    bytes: &mut Vec<u8>,
    alloc: Global,
    symbols: &Symbols,
    symbol: SymbolNo,
) -> Result<(), AllocError>
    requires { IsSymbol symbols.now symbol.0 }
    ensures { OnOk result (bytes.new.items ≡ bytes.old.items ++ symbol_text symbols.now symbol.0) }
{
    bytes.push(b'{')?;
    add_key(bytes, "name")?;
    add_name(bytes, symbols.name(symbol))?;
    bytes.push(b',')?;
    add_key(bytes, "ports")?;
    add_ports(bytes, alloc, symbols, symbol)?;
    bytes.push(b'}')?;
    Ok(())
}

/// Adds the symbols, as an array.
pub fn add_symbols(bytes: &mut Vec<u8>, alloc: Global, symbols: &Symbols) -> Result<(), AllocError>
    ensures { OnOk result (bytes.new.items ≡ bytes.old.items ++ symbols_text symbols.now) }
{
    bytes.push(b'[')?;
    for number in 0..symbols.symbols() {
        add_comma(bytes, number as usize)?;
        add_symbol(bytes, alloc, symbols, SymbolNo(number))?;
    }
    bytes.push(b']')?;
    Ok(())
}
