ghost use Rattle.std.specs.Prelude.{IsTrue, length};
ghost use Rattle.std.specs.List.{AllByRecursion};
ghost use Rattle.in_net.specs.Built.{IsOver};
ghost use Rattle.in_net.specs.Rules.{IsRuleOver};
ghost use Rattle.in_open_nets_of_programs.specs.Opening.{AreAllThere, AreNumbered};
ghost use Rattle.in_open_nets_of_programs.specs.OpeningRules.{IsRuleWhole};
ghost use Rattle.in_check.specs.Certificates.{Certifies, CertifiesNet, CertifiesRule, CertifiesRules};

use crate::checked::Certificate;
use crate::misfits::Misfit;
use in_net::{Net, Rule};
use in_open_nets::{OpenNet, Stuck, Undone};
use in_open_nets_of_programs::{open_net, open_rule};
use in_simple_deriving::derive;
use in_symbols::Symbols;
use in_syntax::{Code, Fault, Refusal, with_room};
use sqlite_items::Items;
use std::alloc::Global;

/// An open net, and its first part in which no node splits.
#[derive(Drop)]
pub struct StuckPart {
    pub open: OpenNet,
    pub stuck: Stuck,
}

/// The parts of a refused program that explain the refusal, so that a diagnosis need not search for them again.
#[derive(Drop)]
pub enum Evidence {
    /// The ends of the first wire whose types don't fit.
    Misfit(Misfit),
    /// The part of the first rule, or of the net, that no steps build.
    Stuck(StuckPart),
}

/// Derives an open net. If a part is stuck, the refusal has this code, and `evidence` gets the stuck part.
fn certify(
    alloc: Global,
    shape: OpenNet,
    code: Code,
    evidence: &mut Option<Evidence>,
) -> Result<Certificate, Fault>
    ensures { Certifies shape code result }
{
    match derive(alloc, &shape) {
        Ok(derivation) => Ok(Certificate { shape, derivation }),
        Err(Undone::Stuck(stuck)) => {
            let place = stuck.place(&shape);
            *evidence = Some(Evidence::Stuck(StuckPart { open: shape, stuck }));
            Err(Fault::Refused(Refusal::at(code, place)))
        }
        Err(Undone::Memory(error)) => Err(Fault::Memory(error)),
    }
}

/// A rule's open net with the steps that build it, or the rule's refusal.
fn certify_rule(
    alloc: Global,
    symbols: &Symbols,
    rule: &Rule,
    evidence: &mut Option<Evidence>,
) -> Result<Certificate, Fault>
    requires over { IsRuleOver symbols.now rule.now }
    requires whole { IsRuleWhole symbols.now rule.now }
    requires numbered { AreNumbered symbols.now }
    ensures { CertifiesRule symbols.now rule.now result }
{
    let shape = open_rule(alloc, symbols, rule)?;
    certify(alloc, shape, Code::E12, evidence)
}

/// The open nets of the rules with their steps; refused for the first rule that is stuck.
pub(crate) fn certify_rules(
    alloc: Global,
    symbols: &Symbols,
    rules: &[Rule],
    evidence: &mut Option<Evidence>,
) -> Result<Items<Certificate>, Fault>
    requires over { AllByRecursion (IsRuleOver symbols.now) rules.now }
    requires whole { AllByRecursion (IsRuleWhole symbols.now) rules.now }
    requires numbered { AreNumbered symbols.now }
    ensures { CertifiesRules symbols.now rules.now result }
{
    let mut certificates = with_room(alloc, rules.len())?;
    for rule in rules {
        let certificate = certify_rule(alloc, symbols, rule, evidence)?;
        certificates.push(certificate)?;
    }
    Ok(certificates)
}

/// The net's open net with the steps that build it, or the net's refusal.
pub(crate) fn certify_net(
    alloc: Global,
    symbols: &Symbols,
    net: &Net,
    evidence: &mut Option<Evidence>,
) -> Result<Certificate, Fault>
    requires over { IsOver symbols.now net.now }
    requires built { IsTrue net.now.built }
    requires there { AreAllThere net.now }
    requires numbered { AreNumbered symbols.now }
    ensures { CertifiesNet symbols.now net.now result }
{
    let shape = open_net(alloc, symbols, net)?;
    certify(alloc, shape, Code::E13, evidence)
}
