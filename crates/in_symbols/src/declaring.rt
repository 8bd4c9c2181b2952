ghost use Rattle.std.specs.Prelude.{◌≡◌, map, IfOk};
ghost use Rattle.in_symbols.specs.Searching.{undeclared, declares, declares_all, declares_all_free, repeats};

use crate::names::Names;
use in_syntax::{Name, Place, Source};
use std::alloc::{AllocError, Global};

/// A namespace while its names are declared, and the earliest place at which a name must not be declared.
#[derive(Drop)]
pub(crate) struct Declared {
    pub(crate) names: Names,
    pub(crate) repeat: Option<Place>,
}

impl Declared {
    fn new(alloc: Global) -> Declared
        ensures { result ≡ undeclared }
    {
        Declared {
            names: Names::new(alloc),
            repeat: None,
        }
    }

    /// Notes a place at which a name must not be declared.
    fn refuse(&mut self, name: &Name)
        ensures { self.new ≡ repeats self.old name.now }
    {
        self.repeat = Place::earlier(self.repeat, Some(name.place));
    }

    fn declare(&mut self, alloc: Global, name: &Name) -> Result<(), AllocError>
        ensures { IfOk result (λ _. self.new ≡ declares self.old name.now) }
    {
        if !self.names.declare(alloc, name.text.as_str())? {
            self.refuse(name);
        }
        Ok(())
    }
}

/// The names of the types.
pub(crate) fn types_of(alloc: Global, source: &Source) -> Result<Declared, AllocError>
    ensures { IfOk result (λ d. d ≡ declares_all undeclared source.now.types) }
{
    let mut declared = Declared::new(alloc);
    for name in source.types.as_slice() {
        declared.declare(alloc, name)?;
    }
    Ok(declared)
}

/// The names of the symbols.
pub(crate) fn symbols_of(alloc: Global, source: &Source) -> Result<Declared, AllocError>
    ensures { IfOk result (λ d. d ≡ declares_all undeclared (map (λ s. s.name) source.now.symbols)) }
{
    let mut declared = Declared::new(alloc);
    for symbol in source.symbols.as_slice() {
        declared.declare(alloc, &symbol.name)?;
    }
    Ok(declared)
}

/// The free names that are no symbols'.
pub(crate) fn free_names_of(
    alloc: Global,
    source: &Source,
    symbols: &Names,
) -> Result<Declared, AllocError>
    ensures { IfOk result (λ d. d ≡ declares_all_free symbols.now undeclared (map (λ f. f.name) source.now.net.free)) }
{
    let mut declared = Declared::new(alloc);
    for free in source.net.free.as_slice() {
        if symbols.number_of(free.name.text.as_str()).is_some() {
            declared.refuse(&free.name);
        } else {
            declared.declare(alloc, &free.name)?;
        }
    }
    Ok(declared)
}
