ghost use Rattle.in_syntax.specs.declared.text_limits.TextLimits.{TextLimits};
ghost use Rattle.std.specs.Prelude.{◌≡◌, ◌<◌, ℕ, List, length, slice_get, option_map, Some};
ghost use Rattle.in_check.specs.Checking.{IsAccepted, IsCertified};
ghost use Rattle.in_cover.specs.Cover.{IsPair, IsRuleFor};
ghost use Rattle.in_check.specs.Programs.{IsItemOf, certificate_of, counts_of};

use in_base::use_invariant;
use in_cover::{RuleNo, RuleTable};
use in_net::{Net, Rule};
use in_open_nets::{Derivation, OpenNet};
use in_symbols::Symbols;
use in_syntax::SymbolNo;
use sqlite_items::Items;
use std::marker::Model;

/// The size of an accepted program: its numbers of types, symbols, rules, and agents of its initial net.
#[derive(Clone, Copy, Debug, PartialEq, Eq)]
pub struct ProgramCounts {
    pub types: u32,
    pub symbols: u32,
    pub rules: u32,
    pub agents: u32,
}

/// A part of a program that is built by steps: a rule, by its number from 0 in the order of the text, or the initial net.
#[derive(Clone, Copy, Debug, PartialEq, Eq)]
pub enum Item {
    RuleItem(RuleNo),
    NetItem,
}

/// An open net and the steps that build it.
#[derive(Drop)]
pub struct Certificate {
    pub shape: OpenNet,
    pub derivation: Derivation,
}

/// The results of the passes on a text: its tables, its rules and its net, the number of the rule of every two matching symbols, and
/// for each rule and the net the steps that build it.
#[derive(Drop)]
pub(crate) struct Passed {
    pub(crate) symbols: Symbols,
    pub(crate) rules: Items<Rule>,
    pub(crate) net: Net,
    pub(crate) numbers: RuleTable,
    pub(crate) rule_certificates: Items<Certificate>,
    pub(crate) net_certificate: Certificate,
}

// Contracts see the program and its certificates.
impl Model for Passed {
    ghost use Rattle.in_check.specs.Programs as programs;
    ghost use Rattle.std.specs.Prelude.{◌≡◌, ◌^◌, ◌<◌, length};

    ghost Value = { programs.Certified };

    ghost view = { λ c. record {
      program = record {
        tables = c.symbols;
        rules = c.rules;
        net = c.net;
        numbers = c.numbers;
      };
      rule_certificates = c.rule_certificates;
      net_certificate = c.net_certificate;
    } };

    ghost invariant = { λ c. Unit {0} };
}

/// A program that is accepted: its tables, its rules and its net, and for each rule and the net the steps that build it.
#[derive(Drop)]
pub struct Checked {
    pub(crate) passed: Passed,
}

// Contracts see the program of some text, and its certificates.
impl Model for Checked {
    ghost use Rattle.in_check.specs.Programs as programs;
    ghost use Rattle.in_check.specs.Checking as checking;
    ghost use Rattle.in_syntax.specs.declared.text_limits.TextLimits.{TextLimits};
    ghost use Rattle.std.specs.Prelude.{◌≡◌, ◌^◌, ◌<◌, List, ℕ, length};

    ghost Value = { programs.Certified };

    ghost view = { λ c. c.passed };

    ghost invariant = { λ c. (length c.passed.program.rules < 2 ^ 32) × (length c.passed.rule_certificates ≡ length c.passed.program.rules) × ((limits : TextLimits) × (text : List ℕ) × checking.IsCertified limits text c.passed) };
}

impl Checked {
    /// The program is the accepted one of some text, and certified, for proofs. The call does nothing.
    pub fn is_accepted(&self)
        ensures accepted { (limits : TextLimits) × (text : List ℕ) × IsAccepted limits text self.now.program }
        ensures certified { (limits : TextLimits) × (text : List ℕ) × IsCertified limits text self.now }
    {
        use_invariant!(self.passed);
    }

    /// The tables of the program's names.
    pub fn symbols(&self) -> &Symbols
        ensures { result.now ≡ self.now.program.tables }
    {
        &self.passed.symbols
    }

    /// The number of the program's rules.
    pub fn rules(&self) -> u32
        ensures { result ≡ length self.now.program.rules }
    {
        self.passed.rules.len() as u32
    }

    /// The rule of that number, from 0 in the order of the text.
    pub fn rule(&self, number: RuleNo) -> &Rule
        requires { number.0 < length self.now.program.rules }
        ensures { slice_get self.now.program.rules number.0 ≡ Some result.now }
    {
        &self.passed.rules.as_slice()[number.0 as usize]
    }

    /// The number of the one rule of two symbols, in either order. The two have to match: one of them is a constructor,
    /// the other a destructor, of one type.
    pub fn rule_of(&self, one: SymbolNo, other: SymbolNo) -> RuleNo
        requires { IsPair self.now.program.tables one.0 other.0 }
        ensures { IsRuleFor self.now.program.rules result.0 one.0 other.0 }
    {
        self.passed.numbers.rule(one, other)
    }

    /// The numbers of the rules by their two symbols.
    pub fn numbers(&self) -> &RuleTable
        ensures { result.now ≡ self.now.program.numbers }
    {
        &self.passed.numbers
    }

    /// The initial net.
    pub fn net(&self) -> &Net
        ensures { result.now ≡ self.now.program.net }
    {
        &self.passed.net
    }

    /// The open net of a rule or of the net, with its steps.
    fn certified(&self, item: Item) -> &Certificate
        requires { IsItemOf self.now.program item }
        ensures { certificate_of self.now item ≡ Some result.now }
    {
        match item {
            Item::RuleItem(number) => &self.passed.rule_certificates.as_slice()[number.0 as usize],
            Item::NetItem => &self.passed.net_certificate,
        }
    }

    /// The open net of a rule or of the net.
    pub fn shape(&self, item: Item) -> &OpenNet
        requires { IsItemOf self.now.program item }
        ensures { option_map (λ c. c.shape) (certificate_of self.now item) ≡ Some result.now }
    {
        &self.certified(item).shape
    }

    /// The steps that build the open net of a rule or of the net.
    pub fn certificate(&self, item: Item) -> &Derivation
        requires { IsItemOf self.now.program item }
        ensures { option_map (λ c. c.derivation) (certificate_of self.now item) ≡ Some result.now }
    {
        &self.certified(item).derivation
    }

    /// The size of the program.
    pub fn counts(&self) -> ProgramCounts
        ensures { result ≡ counts_of self.now.program }
    {
        ProgramCounts {
            types: self.passed.symbols.types(),
            symbols: self.passed.symbols.symbols(),
            rules: self.rules(),
            agents: self.passed.net.agents(),
        }
    }
}
