ghost use Rattle.std.specs.Prelude.{◌≡◌, length, IfOk};
ghost use Rattle.in_syntax.specs.declared.tree.Term.{out-Term};
ghost use Rattle.in_symbols.specs.Names.{number_in};
ghost use Rattle.in_net.specs.Counting.{NamesInside};
ghost use Rattle.in_syntax.specs.TextLimits.{max_agents, max_member_agents};
ghost use Rattle.in_net.specs.Rules.{body_of_rule};
ghost use Rattle.in_net.specs.Searching.{too_many, misfit_here, misfit, misfit_in_head, misfit_in_equations, fault_of, first_fault};
ghost use Rattle.in_net.specs.TextNet.{body_of};

use crate::counting::miscounted;
use crate::reading::{Agent, Reading};
use in_symbols::Symbols;
use in_syntax::{
    Code, Equation, Head, Place, Refusal, SourceFree, SourceNet, SourceRule, Term, TextLimits,
};
use std::alloc::{AllocError, Global};

/// The place of the first agent after the first `most`.
fn too_many(most: usize, agents: &[Agent]) -> Option<Place>
    ensures { result ≡ too_many most agents.now }
{
    match agents.get(most) {
        Some(agent) => Some(agent.place),
        None => None,
    }
}

/// The place of the term's own name, if it is an agent's and has another number of arguments than its symbol has auxiliary ports.
fn misfit_here(symbols: &Symbols, term: &Term) -> Option<Place>
    ensures { result ≡ misfit_here symbols.now (number_in (out-Term term.now).name.text symbols.now.names) (length (out-Term term.now).args) (out-Term term.now).name.place }
{
    match symbols.number_of(term.name.text.as_str()) {
        Some(symbol) if term.args.len() != symbols.arity(symbol) as usize => Some(term.name.place),
        _ => None,
    }
}

/// The place of the first agent of the term that has another number of arguments than auxiliary ports.
fn misfit(symbols: &Symbols, term: &Term) -> Option<Place>
    ensures { result ≡ misfit symbols.now term.now }
{
    let mut found = misfit_here(symbols, term);
    for argument in term.args.as_slice() {
        found = Place::earlier(found, misfit(symbols, argument));
    }
    found
}

/// The same of equations.
fn misfit_in_equations(symbols: &Symbols, equations: &[Equation]) -> Option<Place>
    ensures { result ≡ misfit_in_equations symbols.now equations.now }
{
    let mut found = None;
    for equation in equations {
        let place = Place::earlier(
            misfit(symbols, &equation.left),
            misfit(symbols, &equation.right),
        );
        found = Place::earlier(found, place);
    }
    found
}

/// The place of the head's own name, if it has another number of terms than its symbol has auxiliary ports.
fn misfit_at_head(symbols: &Symbols, head: &Head) -> Option<Place>
    ensures { result ≡ misfit_here symbols.now (number_in head.now.name.text symbols.now.names) (length head.now.terms) head.now.name.place }
{
    match symbols.number_of(head.name.text.as_str()) {
        Some(symbol) if head.terms.len() != symbols.arity(symbol) as usize => Some(head.name.place),
        _ => None,
    }
}

/// The place of the first name in the head, its own or an agent's in a term, that has another number of terms than auxiliary ports.
fn misfit_in_head(symbols: &Symbols, head: &Head) -> Option<Place>
    ensures { result ≡ misfit_in_head symbols.now head.now }
{
    let mut found = misfit_at_head(symbols, head);
    for term in head.terms.as_slice() {
        found = Place::earlier(found, misfit(symbols, term));
    }
    found
}

/// The first fault of the agents and names of a reading, in the order of the text; at one place the lower code comes first. At most `most` agents
/// are allowed, `misfit` is the place of the first misfit, and `free` has the free names.
fn fault_of(
    alloc: Global,
    most: usize,
    misfit: Option<Place>,
    free: &[SourceFree],
    reading: &Reading,
) -> Result<Option<Refusal>, AllocError>
    requires { NamesInside (length reading.now.names) reading.now.spots }
    ensures { IfOk result (λ fault. fault ≡ fault_of most misfit free.now reading.now) }
{
    let agents = too_many(most, reading.agents.as_slice());
    let names = miscounted(alloc, reading.names.len(), reading.spots.as_slice(), free)?;
    let fault = Refusal::earlier(
        Refusal::found(Code::E03, agents),
        Refusal::found(Code::E07, misfit),
    );
    Ok(Refusal::earlier(fault, Refusal::found(Code::E08, names)))
}

/// The first fault of the net's agents and names.
pub(crate) fn first_fault(
    alloc: Global,
    limits: TextLimits,
    symbols: &Symbols,
    net: &SourceNet,
    reading: &Reading,
) -> Result<Option<Refusal>, AllocError>
    requires { NamesInside (length reading.now.names) reading.now.spots }
    ensures { IfOk result (λ fault. fault ≡ first_fault (max_agents limits) symbols.now (body_of net.now) reading.now) }
{
    fault_of(
        alloc,
        limits.agents(),
        misfit_in_equations(symbols, net.equations.as_slice()),
        net.free.as_slice(),
        reading,
    )
}

/// The first fault of the rule's agents and names.
pub(crate) fn first_rule_fault(
    alloc: Global,
    limits: TextLimits,
    symbols: &Symbols,
    rule: &SourceRule,
    reading: &Reading,
) -> Result<Option<Refusal>, AllocError>
    requires { NamesInside (length reading.now.names) reading.now.spots }
    ensures { IfOk result (λ fault. fault ≡ first_fault (max_member_agents limits) symbols.now (body_of_rule symbols.now rule.now) reading.now) }
{
    let heads = Place::earlier(
        misfit_in_head(symbols, &rule.first),
        misfit_in_head(symbols, &rule.second),
    );
    let equations = misfit_in_equations(symbols, rule.equations.as_slice());
    let misfit = Place::earlier(heads, equations);
    fault_of(alloc, limits.member_agents(), misfit, &[], reading)
}
