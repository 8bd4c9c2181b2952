ghost use Rattle.std.specs.Prelude.{◌≡◌, IfOk, OnOk};
ghost use Rattle.in_syntax.specs.Refusals.{earlier, earlier_refusal, refused};
ghost use Rattle.in_symbols.specs.Searching.{untyped, untyped_in_class, untyped_in_symbol, untyped_in_symbols, untyped_in_free, unknown_name, unknown_in_head, unknown_in_equations, unknown_in_rule, unknown_in_rules, unknown_in, finds, looking, first_fault};

use crate::declaring::{Declared, free_names_of};
use crate::names::Names;
use in_syntax::{
    Code, Equation, Head, Name, Place, Refusal, Source, SourceFree, SourcePort, SourceRule,
    SourceSymbol, Visitor, walk_equations, walk_terms,
};
use std::alloc::{AllocError, Global};

/// The place of the port's type, if it isn't declared.
fn untyped(types: &Names, port: &SourcePort) -> Option<Place>
    ensures { result ≡ untyped types.now port.now }
{
    if types.number_of(port.kind.text.as_str()).is_some() {
        None
    } else {
        Some(port.kind.place)
    }
}

fn untyped_in_class(types: &Names, ports: &[SourcePort]) -> Option<Place>
    ensures { result ≡ untyped_in_class types.now ports.now }
{
    let mut found = None;
    for port in ports {
        found = Place::earlier(found, untyped(types, port));
    }
    found
}

fn untyped_in_symbol(types: &Names, symbol: &SourceSymbol) -> Option<Place>
    ensures { result ≡ untyped_in_symbol types.now symbol.now }
{
    let mut found = untyped(types, &symbol.port);
    for class in symbol.classes.as_slice() {
        found = Place::earlier(found, untyped_in_class(types, class.as_slice()));
    }
    found
}

fn untyped_in_symbols(types: &Names, symbols: &[SourceSymbol]) -> Option<Place>
    ensures { result ≡ untyped_in_symbols types.now symbols.now }
{
    let mut found = None;
    for symbol in symbols {
        found = Place::earlier(found, untyped_in_symbol(types, symbol));
    }
    found
}

fn untyped_in_free(types: &Names, frees: &[SourceFree]) -> Option<Place>
    ensures { result ≡ untyped_in_free types.now frees.now }
{
    let mut found = None;
    for free in frees {
        found = Place::earlier(found, untyped(types, &free.port));
    }
    found
}

/// A search for names that have to be a symbol's and aren't, and the place of the first such name so far.
#[derive(Drop)]
struct Lookup<'a> {
    symbols: &'a Names,
    found: Option<Place>,
}

impl Lookup<'_> {
    /// A name that has to be a symbol's.
    fn look_up(&mut self, name: &Name)
        ensures { self.new ≡ finds self.old (unknown_name (self.old).symbols.now name.now) }
    {
        if self.symbols.number_of(name.text.as_str()).is_none() {
            self.found = Place::earlier(self.found, Some(name.place));
        }
    }
}

// A name without arguments may be a variable's.
impl Visitor for Lookup<'_> {
    type Known = ();

    ghost visits = { looking };

    fn name(&mut self, name: &Name, arguments: usize) -> Result<(), AllocError> {
        if arguments != 0 {
            self.look_up(name);
        }
        Ok(())
    }

    fn argument(&mut self, _of: (), _number: usize, _argument: ()) -> Result<(), AllocError> {
        Ok(())
    }

    fn equation(&mut self, _left: (), _right: (), _tilde: Place) -> Result<(), AllocError> {
        Ok(())
    }
}

/// Looks in a head: at its own name, and then in its terms.
fn look_in_head(lookup: &mut Lookup, head: &Head) -> Result<(), AllocError>
    ensures { OnOk result (lookup.new ≡ finds lookup.old (unknown_in_head (lookup.old).symbols.now head.now)) }
{
    lookup.look_up(&head.name);
    walk_terms(lookup, (), head.terms.as_slice())
}

/// Looks in these equations.
fn look_in_equations(lookup: &mut Lookup, equations: &[Equation]) -> Result<(), AllocError>
    ensures { OnOk result (lookup.new ≡ finds lookup.old (unknown_in_equations (lookup.old).symbols.now equations.now)) }
{
    walk_equations(lookup, equations)
}

/// Looks in a rule's heads and its equations.
fn look_in_rule(lookup: &mut Lookup, rule: &SourceRule) -> Result<(), AllocError>
    ensures { OnOk result (lookup.new ≡ finds lookup.old (unknown_in_rule (lookup.old).symbols.now rule.now)) }
{
    look_in_head(lookup, &rule.first)?;
    look_in_head(lookup, &rule.second)?;
    look_in_equations(lookup, rule.equations.as_slice())
}

/// Looks in these rules.
fn look_in_rules(lookup: &mut Lookup, rules: &[SourceRule]) -> Result<(), AllocError>
    ensures { OnOk result (lookup.new ≡ finds lookup.old (unknown_in_rules (lookup.old).symbols.now rules.now)) }
{
    for rule in rules {
        look_in_rule(lookup, rule)?;
    }
    Ok(())
}

/// The place of the first name in the rules or in the net's equations that requires a symbol and isn't one: a head's name, or a name with arguments.
fn first_unknown(symbols: &Names, source: &Source) -> Result<Option<Place>, AllocError>
    ensures { IfOk result (λ found. found ≡ unknown_in symbols.now source.now) }
{
    let mut lookup = Lookup {
        symbols,
        found: None,
    };
    look_in_rules(&mut lookup, source.rules.as_slice())?;
    look_in_equations(&mut lookup, source.net.equations.as_slice())?;
    Ok(lookup.found)
}

/// The first fault of the names in the order of the text. At one place the lower code comes first.
pub(crate) fn first_fault(
    alloc: Global,
    source: &Source,
    types: &Declared,
    symbols: &Declared,
) -> Result<Option<Refusal>, AllocError>
    ensures { IfOk result (λ fault. fault ≡ first_fault source.now types.now symbols.now) }
{
    let free = free_names_of(alloc, source, &symbols.names)?;
    let twice = Place::earlier(Place::earlier(types.repeat, symbols.repeat), free.repeat);
    let untyped = Place::earlier(
        untyped_in_symbols(&types.names, source.symbols.as_slice()),
        untyped_in_free(&types.names, source.net.free.as_slice()),
    );
    let unknown = first_unknown(&symbols.names, source)?;
    let fault = Refusal::earlier(
        Refusal::found(Code::E04, twice),
        Refusal::found(Code::E05, untyped),
    );
    Ok(Refusal::earlier(fault, Refusal::found(Code::E06, unknown)))
}
