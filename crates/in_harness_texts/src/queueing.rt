//! The active pairs that wait, in the order of a machine's queue.
ghost use Rattle.std.specs.Prelude.{◌≡◌, ◌<◌, length};
ghost use Rattle.in_net.specs.ActivePairs.{AreActive};
ghost use Rattle.in_net.specs.Built.{IsOver};
ghost use Rattle.in_net.specs.Rules.{HasTypesOfHeads, IsRuleOver};

use in_base::use_promise;
use in_check::{Checked, Plain};
use in_cover::RuleNo;
use in_interaction::{MOST_AGENTS, made};
use in_net::{AgentNo, Net, Rule};
use in_symbols::Symbols;
use std::alloc::{AllocError, Global};

/// Two agents of an active pair, the constructor first.
pub type Pair = (AgentNo, AgentNo);

/// The pairs that wait at first: those of the program's net, in the order of their wires.
pub fn first_pairs(alloc: Global, checked: &Checked, plain: &Plain) -> Result<Vec<Pair>, AllocError>
    requires { plain.now.program ≡ checked.now.program }
{
    let mut pairs = Vec::new(alloc);
    for wire in 0..plain.net().wires() {
        if let Some(pair) = plain.net().pair_of_wire(checked.symbols(), wire) {
            pairs.push(pair)?;
        }
    }
    Ok(pairs)
}

/// The rule of that number.
fn rule_at(checked: &Checked, number: u32) -> &Rule
    requires { number < length checked.now.program.rules }
    ensures over { IsRuleOver checked.now.program.tables result.now }
    ensures declared { HasTypesOfHeads checked.now.program.tables result.now }
{
    use_promise!(checked.is_accepted());
    checked.rule(RuleNo(number))
}

/// Adds the pairs that an interaction of this pair makes, if the rule is for its symbols.
fn add_made(
    alloc: Global,
    symbols: &Symbols,
    net: &Net,
    rule: &Rule,
    pair: Pair,
    waiting: &mut Vec<Pair>,
) -> Result<(), AllocError>
    requires over { IsOver symbols.now net.now }
    requires rule { IsRuleOver symbols.now rule.now }
    requires declared { HasTypesOfHeads symbols.now rule.now }
    requires active { AreActive net.now pair.0 pair.1 }
{
    let (first, second) = rule.heads();
    if net.agents() > MOST_AGENTS {
        return Ok(());
    }
    match (net.symbol(pair.0), net.symbol(pair.1)) {
        (Some(one), Some(two)) if one.0 == first.0 && two.0 == second.0 => {
            let pairs = made(alloc, symbols, net, rule, pair.0, pair.1)?;
            waiting.extend_from_slice(pairs.as_slice())
        }
        _ => Ok(()),
    }
}

/// The pairs that differ from this one.
fn without(alloc: Global, waiting: &[Pair], pair: Pair) -> Result<Vec<Pair>, AllocError> {
    let mut others = Vec::new(alloc);
    for other in waiting {
        if *other != pair {
            others.push(*other)?;
        }
    }
    Ok(others)
}

/// The pairs that wait after an interaction of this one: the others that waited, and then the new ones.
pub fn waiting_after(
    alloc: Global,
    checked: &Checked,
    plain: &Plain,
    waiting: &[Pair],
    pair: Pair,
) -> Result<Vec<Pair>, AllocError>
    requires program { plain.now.program ≡ checked.now.program }
    requires active { AreActive plain.now.net pair.0 pair.1 }
{
    let mut after = without(alloc, waiting, pair)?;
    for number in 0..checked.rules() {
        let rule = rule_at(checked, number);
        add_made(
            alloc,
            checked.symbols(),
            plain.net(),
            rule,
            pair,
            &mut after,
        )?;
    }
    Ok(after)
}
