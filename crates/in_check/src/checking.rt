//! The passes of `check`, in the order in which they run. The first fault of the first pass that finds one refuses the program.
//!
//! | Pass | Its call | Takes | Gives | Refuses with |
//! |---|---|---|---|---|
//! | `declare_text` | `parse_expecting` | the text | its tree, `Source` | E01, E02, E03 |
//! | `declare` | `Symbols::build` | the tree | the tables of names, `Symbols` | E04, E05, E06 |
//! | `declare_rules` | `build_rule` of each rule | the tree, the tables | each `Rule`: two heads and a right member | E03, E07, E08, E09 |
//! | `declare_net` | `build_net` | the tree, the tables | the `Net`, and with what came before `DeclaredText` | E03, E07, E08, E09 |
//! | `check_types` | `type_rule` of each rule, `type_net` | `DeclaredText` | nothing: its types fit | E11, E10 |
//! | `check_pairs` | `cover` | the tables, the rules | the number of the rule of each pair, `RuleTable` | E14, E15 |
//! | `check_rule_steps` | `open_rule` and `derive` of each rule | the tables, the rules | the steps of each rule, `Certificate` | E12 |
//! | `check_net_steps` | `open_net` and `derive` | the tables, the net | the steps of the net, and with all that was given `Passed` | E13 |
//!
//! A pass makes its call and then the next pass, with all results so far; `declare_net` is the last that needs the tree.
//! A pass that refuses drops its own parameters: the prover goes through a function way by way, and few ways then lead out. Each call
//! except those on types may also end because memory ran out.
ghost use Rattle.std.specs.Prelude.{◌≡◌, Err, IfErr, IfOk, IsTrue, MatchOption, Ok, OnErr};
ghost use Rattle.std.specs.List.{AllByRecursion};
ghost use Rattle.in_syntax.specs.Order.{IsWrittenInOrder};
ghost use Rattle.in_syntax.specs.Parsing.{IsOfText};
ghost use Rattle.in_syntax.specs.Sizes.{IsSized};
ghost use Rattle.in_syntax.specs.declared.faults.Fault.TheVariants.{Refused};
ghost use Rattle.in_symbols.specs.Tables.{IsTabled, Tabulates};
ghost use Rattle.in_net.specs.Built.{IsOver};
ghost use Rattle.in_net.specs.Rules.{IsRuleOver};
ghost use Rattle.in_cover.specs.Cover.{IsRuleOfPair};
ghost use Rattle.in_check.specs.Certificates.{CertifiesRules};
ghost use Rattle.in_check.specs.Programs.{Certified};
ghost use Rattle.in_check.specs.Promises.{ReachesAsPromised};
ghost use Rattle.in_check.specs.Systems.{system_of};
ghost use Rattle.in_check.specs.Checking.{AreOfText, BuildsRules, ChecksNames, ChecksNetSteps, ChecksPairs, ChecksRuleSteps, ChecksTypes, DeclaresNames, DeclaresNet, DeclaresRules, DeclaresText, IsChecked, IsFound, TypePasses, TypesAll, TypesRules};

use crate::certifying::{Evidence, certify_net, certify_rules};
use crate::checked::{Certificate, Checked, Passed};
use crate::findings::Findings;
use crate::misfits::misfit_at;
use in_cover::{RuleTable, cover};
use in_net::{Net, Rule, build_net, build_rule};
use in_symbols::Symbols;
use in_syntax::{Code, Fault, Refusal, Source, TextLimits, parse_expecting, with_room};
use in_typing::{type_net, type_rule};
use sqlite_items::Items;
use std::alloc::{AllocError, Global};

/// The parts of a text: its tables, its rules and its net.
#[derive(Drop)]
struct DeclaredText {
    symbols: Symbols,
    rules: Items<Rule>,
    net: Net,
}

/// The rules of a program in the order of the text; refused for the first fault of the first rule that has one.
fn build_rules(alloc: Global, source: &Source, symbols: &Symbols) -> Result<Items<Rule>, Fault>
    requires sized { IsSized source.now }
    requires order { IsWrittenInOrder source.now }
    requires tabled { IsTabled source.now symbols.now }
    ensures { BuildsRules source.now symbols.now result }
{
    let mut rules = with_room(alloc, source.rules.len())?;
    for index in 0..source.rules.len() as u32 {
        let rule = build_rule(alloc, source, symbols, index)?;
        rules.push(rule)?;
    }
    Ok(rules)
}

/// Whether the types of each rule fit; refused for the first rule whose types don't fit.
fn type_rules(symbols: &Symbols, rules: &[Rule]) -> Result<(), Refusal>
    requires { AllByRecursion (IsRuleOver symbols.now) rules.now }
    ensures { TypesRules symbols.now rules.now result }
{
    for rule in rules {
        type_rule(symbols, rule)?;
    }
    Ok(())
}

/// Whether the types of each rule and then of the net fit.
fn type_all(symbols: &Symbols, rules: &[Rule], net: &Net) -> Result<(), Refusal>
    requires rules { AllByRecursion (IsRuleOver symbols.now) rules.now }
    requires net { IsOver symbols.now net.now }
    requires built { IsTrue net.now.built }
    ensures { TypesAll symbols.now rules.now net.now result }
{
    type_rules(symbols, rules)?;
    type_net(symbols, net)
}

/// Types the rules and the net; a refusal is a fault, as other passes return it.
fn type_pass(symbols: &Symbols, rules: &[Rule], net: &Net) -> Result<(), Fault>
    requires rules { AllByRecursion (IsRuleOver symbols.now) rules.now }
    requires net { IsOver symbols.now net.now }
    requires built { IsTrue net.now.built }
    ensures { TypePasses symbols.now rules.now net.now result }
{
    match type_all(symbols, rules, net) {
        Ok(()) => Ok(()),
        Err(refusal) => Err(Fault::Refused(refusal)),
    }
}

/// Derives the net, and joins the results of all passes.
fn check_net_steps(
    alloc: Global,
    declared: DeclaredText,
    numbers: RuleTable,
    rule_certificates: Items<Certificate>,
    evidence: &mut Option<Evidence>,
) -> Result<Passed, Fault>
    requires { AreOfText declared.symbols declared.rules declared.net }
    ensures { ChecksNetSteps declared.symbols declared.rules declared.net numbers rule_certificates result }
{
    match certify_net(alloc, &declared.symbols, &declared.net, evidence) {
        Ok(net_certificate) => {
            let DeclaredText {
                symbols,
                rules,
                net,
            } = declared;
            Ok(Passed {
                symbols,
                rules,
                net,
                numbers,
                rule_certificates,
                net_certificate,
            })
        }
        Err(fault) => {
            drop((declared, numbers, rule_certificates));
            Err(fault)
        }
    }
}

/// Derives the steps of the rules.
fn rule_steps(
    alloc: Global,
    declared: &DeclaredText,
    evidence: &mut Option<Evidence>,
) -> Result<Items<Certificate>, Fault>
    requires { AreOfText declared.now.symbols declared.now.rules declared.now.net }
    ensures { CertifiesRules declared.now.symbols declared.now.rules result }
{
    certify_rules(
        alloc,
        &declared.symbols,
        declared.rules.as_slice(),
        evidence,
    )
}

/// Derives the steps of the rules, and then those of the net.
fn check_rule_steps(
    alloc: Global,
    declared: DeclaredText,
    numbers: RuleTable,
    evidence: &mut Option<Evidence>,
) -> Result<Passed, Fault>
    requires { AreOfText declared.symbols declared.rules declared.net }
    ensures { ChecksRuleSteps declared.symbols declared.rules declared.net numbers result }
{
    match rule_steps(alloc, &declared, evidence) {
        Ok(certificates) => check_net_steps(alloc, declared, numbers, certificates, evidence),
        Err(fault) => {
            drop((declared, numbers));
            Err(fault)
        }
    }
}

/// Finds the one rule for each pair, and then the steps.
fn check_pairs(
    alloc: Global,
    declared: DeclaredText,
    evidence: &mut Option<Evidence>,
) -> Result<Passed, Fault>
    requires text { AreOfText declared.symbols declared.rules declared.net }
    requires pairs { AllByRecursion (IsRuleOfPair declared.symbols) declared.rules }
    ensures { ChecksPairs declared.symbols declared.rules declared.net result }
{
    match cover(alloc, &declared.symbols, declared.rules.as_slice()) {
        Ok(numbers) => check_rule_steps(alloc, declared, numbers, evidence),
        Err(fault) => {
            drop(declared);
            Err(fault)
        }
    }
}

/// The ends of the wire of a fault, if the fault is one of types.
fn misfit_of(declared: &DeclaredText, fault: &Fault) -> Option<Evidence> {
    match fault {
        Fault::Refused(
            Refusal {
                code: Code::E10,
                place,
                ..
            },
        ) => {
            let rules = declared.rules.as_slice();
            let misfit = misfit_at(&declared.symbols, rules, &declared.net, *place)?;
            Some(Evidence::Misfit(misfit))
        }
        _ => None,
    }
}

/// Checks the types, and then one rule for each pair and the steps.
fn check_types(
    alloc: Global,
    declared: DeclaredText,
    evidence: &mut Option<Evidence>,
) -> Result<Passed, Fault>
    requires { AreOfText declared.symbols declared.rules declared.net }
    ensures { ChecksTypes declared.symbols declared.rules declared.net result }
{
    let rules = declared.rules.as_slice();
    match type_pass(&declared.symbols, rules, &declared.net) {
        Ok(()) => check_pairs(alloc, declared, evidence),
        Err(mistyped) => {
            *evidence = misfit_of(&declared, &mistyped);
            drop(declared);
            Err(mistyped)
        }
    }
}

/// Builds the net, and returns all declared parts.
fn declare_net(
    alloc: Global,
    source: &Source,
    symbols: Symbols,
    rules: Items<Rule>,
) -> Result<DeclaredText, Fault>
    requires tree { IsOfText source.now }
    requires tables { Tabulates source.now (Ok symbols) }
    requires rules { BuildsRules source.now symbols (Ok rules) }
    ensures { DeclaresNet source.now symbols rules result }
{
    match build_net(alloc, source, &symbols) {
        Ok(net) => Ok(DeclaredText {
            symbols,
            rules,
            net,
        }),
        Err(fault) => {
            drop((symbols, rules));
            Err(fault)
        }
    }
}

/// Builds the rules, and then the net.
fn declare_rules(alloc: Global, source: &Source, symbols: Symbols) -> Result<DeclaredText, Fault>
    requires tree { IsOfText source.now }
    requires tables { Tabulates source.now (Ok symbols) }
    ensures { DeclaresRules source.now symbols result }
{
    match build_rules(alloc, source, &symbols) {
        Ok(rules) => declare_net(alloc, source, symbols, rules),
        Err(fault) => {
            drop(symbols);
            Err(fault)
        }
    }
}

/// Builds the tables of names, and then the rules and the net.
fn declare(alloc: Global, source: &Source) -> Result<DeclaredText, Fault>
    requires { IsOfText source.now }
    ensures { DeclaresNames source.now result }
{
    match Symbols::build(alloc, source) {
        Ok(symbols) => declare_rules(alloc, source, symbols),
        Err(fault) => Err(fault),
    }
}

/// Builds all parts that the tree declares, which outlast it: later passes take their memory when the tree's is given back. A refused tree is kept.
fn declare_tree(
    alloc: Global,
    source: Source,
    findings: &mut Findings,
) -> Result<DeclaredText, Fault>
    requires { IsOfText source }
    ensures declared { DeclaresNames source result }
    ensures kept { findings.new ≡ findings.old }
{
    match declare(alloc, &source) {
        Ok(declared) => Ok(declared),
        Err(fault) => {
            findings.source = Some(source);
            Err(fault)
        }
    }
}

/// Builds the tree, and then all parts that it declares.
fn declare_text(
    alloc: Global,
    limits: TextLimits,
    text: &[u8],
    findings: &mut Findings,
) -> Result<DeclaredText, Fault>
    ensures declared { DeclaresText limits text.now result }
    ensures kept { findings.new ≡ findings.old }
{
    match parse_expecting(alloc, limits, text, &mut findings.expected) {
        Ok(source) => declare_tree(alloc, source, findings),
        Err(fault) => Err(fault),
    }
}

/// Builds all parts that the tree declares, and then checks the types and the rest.
fn check_names(
    alloc: Global,
    source: &Source,
    evidence: &mut Option<Evidence>,
) -> Result<Passed, Fault>
    requires { IsOfText source.now }
    ensures { ChecksNames source.now result }
{
    match declare(alloc, source) {
        Ok(declared) => check_types(alloc, declared, evidence),
        Err(fault) => Err(fault),
    }
}

/// Builds all parts that the text declares, and then checks the types and the rest.
fn check_text(
    alloc: Global,
    limits: TextLimits,
    text: &[u8],
    findings: &mut Findings,
) -> Result<Passed, Fault>
    ensures checked { IsChecked limits text.now result }
    ensures kept { findings.new ≡ findings.old }
{
    match declare_text(alloc, limits, text, findings) {
        Ok(declared) => check_types(alloc, declared, &mut findings.evidence),
        Err(fault) => Err(fault),
    }
}

/// The program of a text that all passes accept.
fn checked_text(
    alloc: Global,
    limits: TextLimits,
    text: &[u8],
    findings: &mut Findings,
) -> Result<Checked, Fault>
    ensures checked { IsChecked limits text.now result }
    ensures promised { IfOk result (λ c. ReachesAsPromised (system_of c.program)) }
    ensures kept { findings.new ≡ findings.old }
{
    let passed = check_text(alloc, limits, text, findings)?;
    Ok(Checked { passed })
}

/// Checks a program's text by these limits: its tokens and its tree, then its names, then rule by rule and the net at last its agents, variables
/// and wires, then in the same order the types of wires, then that every two matching symbols have one rule, then rule by rule and
/// the net at last whether it is semi-simple. Returns the parts of an accepted program.
///
/// Returns the first fault of the first pass that finds one: E01 to E03, E04 to E06, E03 and E07 to E09, E10 and E11, E14 and E15, E12, E13;
/// or that memory ran out. Lafont 1990 asks for types that fit, for one rule for each pair and for semi-simple nets; the order of the passes
/// is this project's own choice.
///
/// Every net that an accepted program reaches, by any number of interactions in any order, is typed; has exactly one rule for each
/// active pair; has no crossing circle, and so no vicious one; lets each interaction end, with no closed alternating path left;
/// leads on from each agent to an active pair or to a free end at which it waits; and is written whole.
pub fn check(alloc: Global, limits: TextLimits, text: &[u8]) -> Result<Checked, Fault>
    ensures checked { IsChecked limits text.now result }
    ensures promised { IfOk result (λ c. ReachesAsPromised (system_of c.program)) }
{
    check_finding(alloc, limits, text, &mut Findings::none())
}

/// As `check`. If it refuses the text, `findings` gets the refusal, with what was found until then; else it has the refusal that it had before, if
/// any.
pub fn check_finding(
    alloc: Global,
    limits: TextLimits,
    text: &[u8],
    findings: &mut Findings,
) -> Result<Checked, Fault>
    ensures checked { IsChecked limits text.now result }
    ensures promised { IfOk result (λ c. ReachesAsPromised (system_of c.program)) }
    ensures found { IfErr result (IsFound findings.old findings.new) }
    ensures accepted { IfOk result (λ _. findings.new ≡ findings.old) }
{
    match checked_text(alloc, limits, text, findings) {
        Ok(checked) => Ok(checked),
        Err(Fault::Refused(refusal)) => {
            findings.refuse(refusal);
            Err(Fault::Refused(refusal))
        }
        Err(Fault::Memory(error)) => Err(Fault::Memory(error)),
    }
}

/// The refusal of a program by its tree: as `check` refuses a text of that tree; `None` if it is accepted. `evidence`
/// gets the parts that explain E10, E12 or E13: the two ends of a wire whose types don't fit, or the open net that no steps build, with its
/// first part in which no node splits. The only error is running out of memory, and then `evidence` is as before.
pub fn refusal_of(
    alloc: Global,
    source: &Source,
    evidence: &mut Option<Evidence>,
) -> Result<Option<Refusal>, AllocError>
    requires { IsOfText source.now }
    ensures found { IfOk result (λ found. MatchOption found ((c : Certified) × ChecksNames source.now (Ok c)) (λ r. ChecksNames source.now (Err (Refused r)))) }
    ensures refused { OnErr result (evidence.new ≡ evidence.old) }
{
    let mut at_hand = None;
    match check_names(alloc, source, &mut at_hand).err() {
        None => Ok(None),
        Some(Fault::Refused(refusal)) => {
            *evidence = at_hand;
            Ok(Some(refusal))
        }
        Some(Fault::Memory(error)) => Err(error),
    }
}
