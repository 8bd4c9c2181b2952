ghost use Rattle.std.specs.Prelude.{◌≡◌, [], ◌∷◌, ◌++◌, IfOk, OnOk};
ghost use Rattle.in_syntax.specs.Trees.{bare, bare_head, bare_rule, with_argument, with_class, with_equation, rule_with_equation, with_term};

use crate::places::Place;
use crate::text::Text;
use crate::text_limits::TextLimits;
use sqlite_items::Items;
use std::alloc::{AllocError, Global};

pub type TypeNames = Items<Name>;

pub type SourceSymbols = Items<SourceSymbol>;

pub type SourceClass = Items<SourcePort>;

pub type SourceClasses = Items<SourceClass>;

pub type SourceRules = Items<SourceRule>;

pub type SourceFrees = Items<SourceFree>;

pub type Equations = Items<Equation>;

pub type Terms = Items<Term>;

/// A program as written, each list in the order of the text, and the limits by which it was read.
pub struct Source {
    pub limits: TextLimits,
    pub types: TypeNames,
    pub symbols: SourceSymbols,
    pub rules: SourceRules,
    pub net: SourceNet,
}

// By hand, so that each drop is a call: a derived one is written out in each proof, at each way out.
impl Drop for Source {
    fn drop(self) {
        let Source {
            limits: _,
            types: _,
            symbols: _,
            rules: _,
            net: _,
        } = self;
    }
}

/// A name as written, and its place.
#[derive(Debug, Drop)]
pub struct Name {
    pub text: Text,
    pub place: Place,
}

/// A port's type: the name of the type, and whether the port is an output (`+`).
#[derive(Drop)]
pub struct SourcePort {
    pub kind: Name,
    pub output: bool,
}

/// The declaration of a symbol: its principal port, and its auxiliary ports class by class.
pub struct SourceSymbol {
    pub name: Name,
    pub port: SourcePort,
    pub classes: SourceClasses,
}

// By hand, so that each drop is a call, as with `Source`.
impl Drop for SourceSymbol {
    fn drop(self) {
        let SourceSymbol {
            name: _,
            port: _,
            classes: _,
        } = self;
    }
}

impl SourceSymbol {
    /// The symbol with one more class, at the end. Its only error is running out of memory.
    pub(crate) fn with_class(mut self, class: SourceClass) -> Result<SourceSymbol, AllocError>
        ensures { IfOk result (λ t. t ≡ with_class self class) }
    {
        self.classes.push(class)?;
        Ok(self)
    }
}

/// A rule as written: its two heads, and the equations after its word `with`, if it has that word.
pub struct SourceRule {
    pub first: Head,
    pub second: Head,
    pub equations: Equations,
}

// By hand, so that each drop is a call, as with `Source`.
impl Drop for SourceRule {
    fn drop(self) {
        let SourceRule {
            first: _,
            second: _,
            equations: _,
        } = self;
    }
}

impl SourceRule {
    /// A rule without equations.
    pub(crate) fn bare(alloc: Global, first: Head, second: Head) -> SourceRule
        ensures { result ≡ bare_rule first second }
    {
        SourceRule {
            first,
            second,
            equations: Equations::new(alloc),
        }
    }

    /// The rule with one more equation, at the end. Its only error is running out of memory.
    pub(crate) fn with_equation(mut self, equation: Equation) -> Result<SourceRule, AllocError>
        ensures { IfOk result (λ t. t ≡ rule_with_equation self equation) }
    {
        self.equations.push(equation)?;
        Ok(self)
    }
}

/// A head of a rule: a symbol's name, and a term for each of its auxiliary ports.
pub struct Head {
    pub name: Name,
    pub terms: Terms,
}

// By hand, so that each drop is a call, as with `Source`.
impl Drop for Head {
    fn drop(self) {
        let Head { name: _, terms: _ } = self;
    }
}

impl Head {
    /// A head without terms.
    pub fn bare(alloc: Global, name: Name) -> Head
        ensures { result ≡ bare_head name }
    {
        Head {
            name,
            terms: Terms::new(alloc),
        }
    }

    /// The head with one more term, at the end; if it is the first, with room for so many. Its only error is running out of memory.
    pub(crate) fn with_term(
        mut self,
        alloc: Global,
        term: Term,
        room: usize,
    ) -> Result<Head, AllocError>
        ensures { IfOk result (λ h. h ≡ with_term self term) }
    {
        add_one(alloc, &mut self.terms, term, room)?;
        Ok(self)
    }
}

/// An agent with its arguments, or a bare name, which has none: an agent, a variable or a free name.
#[derive(Drop)]
pub struct Term {
    pub name: Name,
    pub args: Terms,
}

impl Term {
    /// A bare name.
    pub fn bare(alloc: Global, name: Name) -> Term
        ensures { result ≡ bare name }
    {
        Term {
            name,
            args: Terms::new(alloc),
        }
    }

    /// Adds an argument at the end; if it is the first, with room for so many. Its only error is running out of memory.
    pub(crate) fn add_argument(
        &mut self,
        alloc: Global,
        argument: Term,
        room: usize,
    ) -> Result<(), AllocError>
        ensures { OnOk result (self.new ≡ with_argument self.old argument) }
    {
        add_one(alloc, &mut self.args, argument, room)
    }
}

// Adds a term at the end; if it is the first, with room for so many.
fn add_one(alloc: Global, terms: &mut Terms, term: Term, room: usize) -> Result<(), AllocError>
    ensures { OnOk result (terms.new ≡ terms.old ++ term ∷ []) }
{
    if terms.is_empty() {
        *terms = first_of(alloc, term, room)?;
        return Ok(());
    }
    terms.push(term)
}

// One term, with room for so many.
fn first_of(alloc: Global, term: Term, room: usize) -> Result<Terms, AllocError>
    ensures { IfOk result (λ t. t ≡ term ∷ []) }
{
    let mut terms = Vec::with_capacity(alloc, room)?;
    terms.push(term)?;
    Ok(Terms::from_vec(terms))
}

/// Two terms that are joined, and the place of the `~` between them.
#[derive(Drop)]
pub struct Equation {
    pub left: Term,
    pub tilde: Place,
    pub right: Term,
}

/// A free end of the net, with the type that it is declared with.
#[derive(Drop)]
pub struct SourceFree {
    pub name: Name,
    pub port: SourcePort,
}

/// The initial net as written.
pub struct SourceNet {
    pub free: SourceFrees,
    pub equations: Equations,
}

// By hand, so that each drop is a call, as with `Source`.
impl Drop for SourceNet {
    fn drop(self) {
        let SourceNet {
            free: _,
            equations: _,
        } = self;
    }
}

impl SourceNet {
    /// The net with one more equation, at the end. Its only error is running out of memory.
    pub(crate) fn with_equation(mut self, equation: Equation) -> Result<SourceNet, AllocError>
        ensures { IfOk result (λ t. t ≡ with_equation self equation) }
    {
        self.equations.push(equation)?;
        Ok(self)
    }
}
