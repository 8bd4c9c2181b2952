ghost use Rattle.std.specs.Prelude.{◌≡◌, ◌<◌, ◌^◌, length, IfOk};
ghost use Rattle.std.specs.List.{AllByRecursion};
ghost use Rattle.in_syntax.specs.Sizes.{IsSized, IsSizedSymbol};
ghost use Rattle.in_symbols.specs.Tables.{port_of, bare_shape, shape_of, shapes_of, Knows, KnowsAll, AddsClass};

use crate::names::Names;
use crate::symbols::{PortType, Shape};
use in_syntax::{Source, SourcePort, SourceSymbol};
use sqlite_items::Items;
use std::alloc::{AllocError, Global};

/// The type of a port whose type is declared.
pub(crate) fn port_type(types: &Names, port: &SourcePort) -> PortType
    requires types { length types.now < 2 ^ 32 }
    requires known { Knows types.now port.now }
    ensures { result ≡ port_of types.now port.now }
{
    match types.number_of(port.kind.text.as_str()) {
        Some(kind) => PortType {
            kind: kind as u32,
            output: port.output,
        },
        // The type of the port is declared, by a requirement.
        None => unreachable!(),
    }
}

/// Adds the places of one class.
fn add_class(
    shape: &mut Shape,
    types: &Names,
    number: u8,
    ports: &[SourcePort],
) -> Result<(), AllocError>
    requires types { length types.now < 2 ^ 32 }
    requires known { AllByRecursion (Knows types.now) ports.now }
    ensures { IfOk result (λ _. AddsClass types.now number ports.now shape.old shape.new) }
{
    for port in ports {
        shape.ports.push(port_type(types, port))?;
        shape.classes.push(number)?;
    }
    Ok(())
}

/// Adds the places of a symbol, the principal port first.
fn add_places(shape: &mut Shape, types: &Names, symbol: &SourceSymbol) -> Result<(), AllocError>
    requires sized { IsSizedSymbol symbol.now }
    requires types { length types.now < 2 ^ 32 }
    requires known { KnowsAll types.now symbol.now }
    requires bare { shape.old ≡ bare_shape symbol.now }
    ensures { IfOk result (λ _. shape.new ≡ shape_of types.now symbol.now) }
{
    shape.ports.push(port_type(types, &symbol.port))?;
    shape.classes.push(0)?;
    for class in symbol.classes.as_slice() {
        shape.class_count += 1;
        let number = shape.class_count;
        add_class(shape, types, number, class.as_slice())?;
    }
    Ok(())
}

/// The declaration of a symbol, as the tables have it.
fn shape(alloc: Global, types: &Names, symbol: &SourceSymbol) -> Result<Shape, AllocError>
    requires sized { IsSizedSymbol symbol.now }
    requires types { length types.now < 2 ^ 32 }
    requires known { KnowsAll types.now symbol.now }
    ensures { IfOk result (λ s. s ≡ shape_of types.now symbol.now) }
{
    let mut shape = Shape {
        place: symbol.name.place,
        ports: Items::new(alloc),
        classes: Items::new(alloc),
        class_count: 0,
    };
    add_places(&mut shape, types, symbol)?;
    Ok(shape)
}

/// The declaration of each symbol.
pub(crate) fn shapes(
    alloc: Global,
    source: &Source,
    types: &Names,
) -> Result<Items<Shape>, AllocError>
    requires sized { IsSized source.now }
    requires types { length types.now < 2 ^ 32 }
    requires known { AllByRecursion (KnowsAll types.now) source.now.symbols }
    ensures { IfOk result (λ s. s ≡ shapes_of types.now source.now) }
{
    let mut all = Items::new(alloc);
    for symbol in source.symbols.as_slice() {
        all.push(shape(alloc, types, symbol)?)?;
    }
    Ok(all)
}
