ghost use Rattle.std.specs.Prelude.{◌≡◌, ◌+◌, ◌<◌, ◌++◌, cond, length, None, IfOk, OnOk};
ghost use Rattle.in_syntax.specs.Sizes.{IsSized};
ghost use Rattle.in_syntax.specs.Order.{IsWrittenInOrder};
ghost use Rattle.in_symbols.specs.Tables.{IsSymbol, IsTabled, IsHeadKnown, arity_of};
ghost use Rattle.in_net.specs.Building.{AreSmallSpots, IsJoined, boundary_of};
ghost use Rattle.in_net.specs.Built.{ArePointsAt};
ghost use Rattle.in_net.specs.Rules.{symbol_of, is_turned, body_of_rule, IsReadable, BuildsRuleOf, BuildsRule};
ghost use Rattle.in_net.specs.Joining.{joined_spots};
ghost use Rattle.in_syntax.specs.TextLimits.{max_member_agents};
ghost use Rattle.in_net.specs.Reading.{reading_of};
ghost use Rattle.in_net.specs.Searching.{first_fault};

use crate::building::{assemble, closed_at, partner};
use crate::faults::first_rule_fault;
use crate::joining::{Link, join_all};
use crate::nets::FreeEnd;
use crate::reading::{Reading, TextSpot, read_rule};
use crate::rules::Rule;
use in_symbols::Symbols;
use in_syntax::{Fault, Head, Source, SourceRule, SymbolNo, Text, TextLimits};
use std::alloc::{AllocError, Global};

/// The symbol of a head's name.
fn symbol_of(symbols: &Symbols, head: &Head) -> SymbolNo
    requires { IsHeadKnown symbols.now.names head.now }
    ensures symbol { result.0 ≡ symbol_of symbols.now head.now }
    ensures there { IsSymbol symbols.now result.0 }
{
    match symbols.number_of(head.name.text.as_str()) {
        Some(symbol) => symbol,
        // The name of the head is known, by a requirement.
        None => unreachable!(),
    }
}

/// Whether the second symbol is the constructor, and the first one the destructor, of one type.
fn is_turned(symbols: &Symbols, first: SymbolNo, second: SymbolNo) -> bool
    requires first { IsSymbol symbols.now first.0 }
    requires second { IsSymbol symbols.now second.0 }
    ensures { result ≡ is_turned symbols.now first.0 second.0 }
{
    symbols.matching(first, second) && !symbols.is_constructor(first)
}

/// The two symbols, turned or as written.
fn ordered(written: (SymbolNo, SymbolNo), turned: bool) -> (SymbolNo, SymbolNo)
    ensures { result ≡ cond turned (written.1, written.0) written }
{
    if turned {
        (written.1, written.0)
    } else {
        written
    }
}

/// The reading of a rule with these symbols as written: the boundary ends of the constructor come first.
fn read(
    alloc: Global,
    symbols: &Symbols,
    rule: &SourceRule,
    written: (SymbolNo, SymbolNo),
    turned: bool,
) -> Result<Reading, AllocError>
    requires first { IsSymbol symbols.now written.0.0 }
    requires second { IsSymbol symbols.now written.1.0 }
    requires symbols { (written.0.0 ≡ symbol_of symbols.now rule.now.first) × (written.1.0 ≡ symbol_of symbols.now rule.now.second) }
    requires turned { turned ≡ is_turned symbols.now written.0.0 written.1.0 }
    ensures { IfOk result (λ r. r ≡ reading_of symbols.now (body_of_rule symbols.now rule.now)) }
{
    let one = symbols.arity(written.0) as usize;
    let other = symbols.arity(written.1) as usize;
    let (first, second) = if turned { (other, 0) } else { (0, one) };
    read_rule(alloc, symbols, rule, one + other, first, second)
}

/// Adds the boundary ends at the auxiliary places of a symbol.
fn add_boundary(
    alloc: Global,
    symbols: &Symbols,
    spots: &[TextSpot],
    links: &[Link],
    symbol: SymbolNo,
    ends: &mut Vec<FreeEnd>,
) -> Result<(), AllocError>
    requires symbol { IsSymbol symbols.now symbol.0 }
    requires points { ArePointsAt spots.now (length ends.old.items) (arity_of symbols.now symbol.0) }
    requires joined { IsJoined spots.now links.now }
    requires small { AreSmallSpots spots.now }
    ensures { OnOk result (ends.new.items ≡ ends.old.items ++ boundary_of symbols.now spots.now links.now symbol.0 (length ends.old.items)) }
{
    let arity = symbols.arity(symbol);
    for place in 0..arity {
        let number = ends.len();
        ends.push(FreeEnd {
            name: Text::from_str(alloc, "")?,
            kind: symbols.port(symbol, place + 1),
            end: partner(spots, links, number),
        })?;
    }
    Ok(())
}

/// The boundary ends of a rule with these symbols, those of the first one first.
fn boundary(
    alloc: Global,
    symbols: &Symbols,
    spots: &[TextSpot],
    links: &[Link],
    heads: (SymbolNo, SymbolNo),
) -> Result<Vec<FreeEnd>, AllocError>
    requires first { IsSymbol symbols.now heads.0.0 }
    requires second { IsSymbol symbols.now heads.1.0 }
    requires points { ArePointsAt spots.now 0 (arity_of symbols.now heads.0.0 + arity_of symbols.now heads.1.0) }
    requires joined { IsJoined spots.now links.now }
    requires small { AreSmallSpots spots.now }
    ensures { IfOk result (λ ends. ends.items ≡ boundary_of symbols.now spots.now links.now heads.0.0 0 ++ boundary_of symbols.now spots.now links.now heads.1.0 (arity_of symbols.now heads.0.0)) }
{
    let mut ends = Vec::new(alloc);
    add_boundary(alloc, symbols, spots, links, heads.0, &mut ends)?;
    add_boundary(alloc, symbols, spots, links, heads.1, &mut ends)?;
    Ok(ends)
}

/// The rule of a reading without faults, with its links.
fn linked_rule(
    alloc: Global,
    limits: TextLimits,
    symbols: &Symbols,
    rule: &SourceRule,
    reading: &Reading,
    links: &[Link],
) -> Result<Rule, Fault>
    requires readable { IsReadable symbols.now rule.now }
    requires read { reading.now ≡ reading_of symbols.now (body_of_rule symbols.now rule.now) }
    requires clear { None ≡ first_fault (max_member_agents limits) symbols.now (body_of_rule symbols.now rule.now) reading.now }
    requires links { links.now ≡ (joined_spots reading.now).links }
    requires whole { (joined_spots reading.now).closed ≡ None }
    ensures { BuildsRuleOf limits symbols.now rule.now result }
{
    let written = (
        symbol_of(symbols, &rule.first),
        symbol_of(symbols, &rule.second),
    );
    let turned = is_turned(symbols, written.0, written.1);
    let heads = ordered(written, turned);
    let spots = reading.spots.as_slice();
    let free = boundary(alloc, symbols, spots, links, heads)?;
    let member = assemble(alloc, symbols, reading, links, free)?;
    Ok(Rule {
        written,
        heads,
        head_places: (rule.first.name.place, rule.second.name.place),
        member,
    })
}

/// The rule of a reading whose agents and names have no fault.
fn joined_rule(
    alloc: Global,
    limits: TextLimits,
    symbols: &Symbols,
    rule: &SourceRule,
    reading: &Reading,
) -> Result<Rule, Fault>
    requires readable { IsReadable symbols.now rule.now }
    requires read { reading.now ≡ reading_of symbols.now (body_of_rule symbols.now rule.now) }
    requires clear { None ≡ first_fault (max_member_agents limits) symbols.now (body_of_rule symbols.now rule.now) reading.now }
    ensures { BuildsRuleOf limits symbols.now rule.now result }
{
    let joined = join_all(alloc, reading)?;
    match joined.closed {
        Some(place) => Err(closed_at(place)),
        None => linked_rule(
            alloc,
            limits,
            symbols,
            rule,
            reading,
            joined.links.as_slice(),
        ),
    }
}

/// The rule of a reading.
fn rule_from(
    alloc: Global,
    limits: TextLimits,
    symbols: &Symbols,
    rule: &SourceRule,
    reading: &Reading,
) -> Result<Rule, Fault>
    requires readable { IsReadable symbols.now rule.now }
    requires read { reading.now ≡ reading_of symbols.now (body_of_rule symbols.now rule.now) }
    ensures { BuildsRuleOf limits symbols.now rule.now result }
{
    match first_rule_fault(alloc, limits, symbols, rule, reading)? {
        Some(refusal) => Err(Fault::Refused(refusal)),
        None => joined_rule(alloc, limits, symbols, rule, reading),
    }
}

/// The rule of this text.
fn rule_of(
    alloc: Global,
    limits: TextLimits,
    symbols: &Symbols,
    rule: &SourceRule,
) -> Result<Rule, Fault>
    requires { IsReadable symbols.now rule.now }
    ensures { BuildsRuleOf limits symbols.now rule.now result }
{
    let written = (
        symbol_of(symbols, &rule.first),
        symbol_of(symbols, &rule.second),
    );
    let turned = is_turned(symbols, written.0, written.1);
    let reading = read(alloc, symbols, rule, written, turned)?;
    rule_from(alloc, limits, symbols, rule, &reading)
}

/// A rule of a program, by its number in the order of the text from 0.
///
/// Refused for the first fault in the order of the text, at one place the lower code: E03 at the name of the agent that is one
/// more than the limits allow, where the heads aren't counted; E07 at an agent's or a head's name, where its number of
/// arguments or terms isn't its symbol's arity; E08 if a variable doesn't occur twice: at its only occurrence or its third one.
/// Only without these faults, E09 for a closed wire, the first by the place of the wire. Or when out of memory. Lafont 1990 writes
/// a rule as two agents with terms at their auxiliary ports, in which each variable occurs twice; the equations of a rule, the
/// codes and their places are this project's own choice.
pub fn build_rule(
    alloc: Global,
    source: &Source,
    symbols: &Symbols,
    index: u32,
) -> Result<Rule, Fault>
    requires index { index < length source.now.rules }
    requires sized { IsSized source.now }
    requires order { IsWrittenInOrder source.now }
    requires tabled { IsTabled source.now symbols.now }
    ensures { BuildsRule source.now symbols.now index result }
{
    rule_of(
        alloc,
        source.limits,
        symbols,
        &source.rules.as_slice()[index as usize],
    )
}
