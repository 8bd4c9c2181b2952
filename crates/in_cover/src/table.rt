// The numbers of the rules by their two symbols, in a word each.
ghost use Rattle.std.specs.Prelude.{◌≡◌, ◌+◌, ◌*◌, ◌<◌, length, IfOk, IsSome, Some, None};
ghost use Rattle.in_cover.specs.Table.{rule_at};
ghost use Rattle.in_cover.specs.Covering.{HasNoRule, Sets};
ghost use Rattle.in_cover.specs.Storing.{no_rule};

use in_syntax::SymbolNo;
use sqlite_items::Items;
use std::alloc::{AllocError, Global};
use std::marker::Model;

/// The number of a rule, from 0 in the order of the text.
#[derive(Clone, Copy, Debug, PartialEq, Eq)]
pub struct RuleNo(pub u32);

/// No rule has this number.
const NO_RULE: u32 = u32::MAX;

/// The number of a rule, or none, in a word.
#[derive(Clone, Copy)]
pub(crate) struct RuleWord {
    number: u32,
}

impl Model for RuleWord {
    ghost use Rattle.std.specs.Prelude.{Option};
    ghost use Rattle.in_cover.specs.declared.table.RuleNo.{RuleNo};
    ghost use Rattle.in_cover.specs.Storing.{rule_from, word_of, word_back};

    ghost Value = { Option RuleNo };

    ghost view = { λ w. rule_from w.number };

    ghost inverse = { λ o. record { number = word_of o } };

    ghost inverse_ok = { λ w h. λ i. record { number = word_back w.number i } };
}

impl RuleWord {
    fn none() -> RuleWord
        ensures { result ≡ None }
    {
        RuleWord { number: NO_RULE }
    }

    fn of(rule: RuleNo) -> RuleWord
        requires { rule.0 < no_rule }
        ensures { result ≡ Some rule }
    {
        RuleWord { number: rule.0 }
    }

    fn rule(self) -> Option<RuleNo>
        ensures { result ≡ self }
    {
        if self.number == NO_RULE {
            None
        } else {
            Some(RuleNo(self.number))
        }
    }

    /// The number of the rule that the word has.
    fn known(self) -> RuleNo
        requires { IsSome self }
        ensures { self ≡ Some result }
    {
        RuleNo(self.number)
    }
}

/// The numbers of the rules by their two symbols, in either order.
#[derive(Drop)]
pub struct RuleTable {
    size: u32,
    words: Items<RuleWord>,
}

// Contracts see a cell for each two symbols.
impl Model for RuleTable {
    ghost use Rattle.in_cover.specs.Table.{Cells};
    ghost use Rattle.std.specs.Prelude.{◌≡◌, ◌*◌, length};

    ghost Value = { Cells };

    ghost view = { λ t. record { size = t.size; cells = t.words } };

    ghost invariant = { λ t. length t.words ≡ t.size * t.size };
}

impl RuleTable {
    /// A table without any rule, for `size` symbols.
    pub(crate) fn empty(alloc: Global, size: u32) -> Result<RuleTable, AllocError>
        ensures { IfOk result (λ t. HasNoRule size t) }
    {
        let mut words = Vec::new(alloc);
        words.resize(size as usize * size as usize, RuleWord::none())?;
        Ok(RuleTable {
            size,
            words: Items::from_vec(words),
        })
    }

    /// A copy of the table. Refused only when out of memory.
    pub fn copy(&self, alloc: Global) -> Result<RuleTable, AllocError>
        ensures { IfOk result (λ t. t ≡ self.now) }
    {
        let words = Items::from_slice(alloc, self.words.as_slice())?;
        Ok(RuleTable {
            size: self.size,
            words,
        })
    }

    /// The number of the rule for two symbols, in either order.
    pub fn rule(&self, c: SymbolNo, d: SymbolNo) -> RuleNo
        requires { IsSome (rule_at self.now c.0 d.0) }
        ensures { rule_at self.now c.0 d.0 ≡ Some result }
    {
        self.words.as_slice()[self.word(c, d)].known()
    }

    /// The number of the rule for two symbols, if there is one.
    pub(crate) fn find(&self, c: SymbolNo, d: SymbolNo) -> Option<RuleNo>
        ensures { result ≡ rule_at self.now c.0 d.0 }
    {
        if c.0 < self.size && d.0 < self.size {
            self.words.as_slice()[self.word(c, d)].rule()
        } else {
            None
        }
    }

    /// Writes the number of the rule for two symbols in this order.
    pub(crate) fn set(&mut self, c: SymbolNo, d: SymbolNo, rule: RuleNo)
        requires first { c.0 < self.old.size }
        requires second { d.0 < self.old.size }
        requires rule { rule.0 < no_rule }
        ensures { Sets self.old c.0 d.0 rule self.new }
    {
        let word = self.word(c, d);
        self.words.set(word, RuleWord::of(rule));
    }

    /// The index of the word of two symbols.
    fn word(&self, c: SymbolNo, d: SymbolNo) -> usize
        requires first { c.0 < self.now.size }
        requires second { d.0 < self.now.size }
        ensures number { result ≡ c.0 * self.now.size + d.0 }
        ensures within { result < length self.now.cells }
    {
        c.0 as usize * self.size as usize + d.0 as usize
    }
}
