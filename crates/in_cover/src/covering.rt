ghost use Rattle.std.specs.Prelude.{◌≡◌, ◌<◌, ◌^◌, length};
ghost use Rattle.std.specs.List.{AllByRecursion};
ghost use Rattle.in_symbols.specs.Tables.{IsSymbol};
ghost use Rattle.in_cover.specs.Cover.{IsRuleOfPair, Covers, second_at, IsMissingAt};
ghost use Rattle.in_cover.specs.Covering.{AddsRule, NumbersRules, FindsGapBelow, FindsGap};
ghost use Rattle.in_cover.specs.Storing.{no_rule};

use crate::table::{RuleNo, RuleTable};
use in_net::Rule;
use in_symbols::Symbols;
use in_syntax::{Code, Fault, Refusal, SymbolNo};
use std::alloc::Global;

/// Writes the rule's number for its two symbols, and returns true, if they had none. Otherwise nothing changes, and it returns false.
fn add(table: &mut RuleTable, number: RuleNo, rule: &Rule) -> bool
    requires first { rule.now.heads.0.0 < table.old.size }
    requires second { rule.now.heads.1.0 < table.old.size }
    requires number { number.0 < no_rule }
    ensures { AddsRule table.old number rule.now.heads.0.0 rule.now.heads.1.0 table.new result }
{
    let (c, d) = rule.heads();
    if table.find(c, d).is_some() {
        return false;
    }
    table.set(c, d, number);
    table.set(d, c, number);
    true
}

/// The refusal of a rule that is the second one for its two symbols.
fn second(rule: &Rule) -> Refusal
    ensures { result ≡ second_at rule.now }
{
    Refusal::at(Code::E14, rule.head_place(0))
}

/// The numbers of the rules; refused for the first rule that is the second one for its two symbols.
fn numbers(alloc: Global, symbols: &Symbols, rules: &[Rule]) -> Result<RuleTable, Fault>
    requires few { length rules.now < 2 ^ 32 }
    requires pairs { AllByRecursion (IsRuleOfPair symbols.now) rules.now }
    ensures { NumbersRules symbols.now rules.now result }
{
    let mut table = RuleTable::empty(alloc, symbols.symbols())?;
    for number in 0..rules.len() {
        let rule = &rules[number];
        if !add(&mut table, RuleNo(number as u32), rule) {
            return Err(Fault::Refused(second(rule)));
        }
    }
    Ok(table)
}

/// The first symbol that is declared before this one and matches it, but has no rule with it.
fn gap_below(symbols: &Symbols, table: &RuleTable, later: SymbolNo) -> Option<SymbolNo>
    requires { IsSymbol symbols.now later.0 }
    ensures { FindsGapBelow symbols.now table.now later.0 result }
{
    for number in 0..later.0 {
        let earlier = SymbolNo(number);
        if symbols.matching(later, earlier) && table.find(later, earlier).is_none() {
            return Some(earlier);
        }
    }
    None
}

/// The first two symbols that match and have no rule, the later declared one first: the earliest of these, and with it the
/// earliest partner.
fn gap(symbols: &Symbols, table: &RuleTable) -> Option<(SymbolNo, SymbolNo)>
    ensures { FindsGap symbols.now table.now result }
{
    for number in 0..symbols.symbols() {
        let later = SymbolNo(number);
        if let Some(earlier) = gap_below(symbols, table, later) {
            return Some((later, earlier));
        }
    }
    None
}

/// The refusal of two symbols that match and have no rule.
fn missing(symbols: &Symbols, later: SymbolNo, earlier: SymbolNo) -> Refusal
    requires later { IsSymbol symbols.now later.0 }
    requires earlier { IsSymbol symbols.now earlier.0 }
    ensures { IsMissingAt symbols.now later.0 earlier.0 result }
{
    Refusal {
        code: Code::E15,
        place: symbols.place(later),
        other: Some(symbols.place(earlier)),
    }
}

/// The table that has the one rule of every two matching symbols.
///
/// Refused with E14 for the first rule that is the second one for its two symbols, at the name of its first head; if there is none, with E15 for two
/// matching symbols without a rule, at the later declared of the two, with the place of the other: for the earliest such place, and there for the
/// earliest declared partner. Or when out of memory. Lafont 1990 requires one rule for each constructor and destructor of one type, and for at most
/// one for two symbols; codes and places are this project's own choice.
pub fn cover(alloc: Global, symbols: &Symbols, rules: &[Rule]) -> Result<RuleTable, Fault>
    requires few { length rules.now < 2 ^ 32 }
    requires pairs { AllByRecursion (IsRuleOfPair symbols.now) rules.now }
    ensures { Covers symbols.now rules.now result }
{
    let table = numbers(alloc, symbols, rules)?;
    match gap(symbols, &table) {
        Some((later, earlier)) => Err(Fault::Refused(missing(symbols, later, earlier))),
        None => Ok(table),
    }
}
