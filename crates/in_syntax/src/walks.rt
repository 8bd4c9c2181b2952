ghost use Rattle.std.specs.Prelude.{◌≡◌, ◌-◌, ◌^◌, ◌<◌, IfOk, OnOk};
ghost use Rattle.in_syntax.specs.Walks.{Visits, walks_term, walks_terms, walks_equations};

use crate::places::Place;
use crate::tree::{Equation, Name, Term};
use std::alloc::{AllocError, Global};

/// A visitor of the names of terms, each before its arguments.
pub trait Visitor {
    /// Its result on a term that was walked.
    type Known: Copy;

    /// Its state after each call, and its result then.
    ghost visits: { Visits Self Self.Known };

    /// A term's name, which has `arguments` arguments; none of these was walked yet.
    fn name(&mut self, name: &Name, arguments: usize) -> Result<Self::Known, AllocError>
        ensures { IfOk result (λ known. (self.new, known) ≡ visits.name self.old name.now arguments) };

    /// The argument of that number, from 0 on, of a term or of a head; the argument was walked.
    fn argument(
        &mut self,
        of: Self::Known,
        number: usize,
        argument: Self::Known,
    ) -> Result<(), AllocError>
        requires { number < 2 ^ 64 - 1 }
        ensures { OnOk result (self.new ≡ visits.argument self.old of number argument) };

    /// The equation with its `~` at that place; both of its terms were walked.
    fn equation(
        &mut self,
        left: Self::Known,
        right: Self::Known,
        tilde: Place,
    ) -> Result<(), AllocError>
        ensures { OnOk result (self.new ≡ visits.equation self.old left right tilde) };
}

/// Walks a term: its name, and then each of its arguments. One call is deeper for each term within a term. The only errors are those
/// of the visitor.
pub fn walk_term<V: Visitor>(visitor: &mut V, term: &Term) -> Result<V::Known, AllocError>
    ensures { IfOk result (λ known. (visitor.new, known) ≡ walks_term V.visits term.now visitor.old) }
{
    let known = visitor.name(&term.name, term.args.len())?;
    for (number, argument) in term.args.as_slice().iter().enumerate() {
        let other = walk_term(visitor, argument)?;
        visitor.argument(known, number, other)?;
    }
    Ok(known)
}

/// Walks these terms, the arguments of `of`.
pub fn walk_terms<V: Visitor>(
    visitor: &mut V,
    of: V::Known,
    terms: &[Term],
) -> Result<(), AllocError>
    ensures { OnOk result (visitor.new ≡ walks_terms V.visits of terms.now visitor.old) }
{
    for (number, term) in terms.iter().enumerate() {
        let other = walk_term(visitor, term)?;
        visitor.argument(of, number, other)?;
    }
    Ok(())
}

/// Walks these equations, of each the left term first.
pub fn walk_equations<V: Visitor>(visitor: &mut V, equations: &[Equation]) -> Result<(), AllocError>
    ensures { OnOk result (visitor.new ≡ walks_equations V.visits equations.now visitor.old) }
{
    for Equation { left, right, tilde } in equations {
        let one = walk_term(visitor, left)?;
        let other = walk_term(visitor, right)?;
        visitor.equation(one, other, *tilde)?;
    }
    Ok(())
}
