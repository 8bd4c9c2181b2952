ghost use Rattle.std.specs.Prelude.{◌≡◌, None, Some};

use crate::certifying::Evidence;
use in_syntax::{Expected, Refusal, Source};
use std::marker::Model;

/// What a check finds of a text that it refuses, so that a diagnosis need not look for it again.
pub struct Findings {
    refusal: Option<Refusal>,
    pub(crate) expected: Expected,
    pub(crate) source: Option<Source>,
    pub(crate) evidence: Option<Evidence>,
}

// By hand, so that each drop is a call: a derived one is written out in each proof, at each way out.
impl Drop for Findings {
    fn drop(self) {
        let Findings {
            refusal: _,
            expected: _,
            source: _,
            evidence: _,
        } = self;
    }
}

// Contracts see the refusal.
impl Model for Findings {
    ghost use Rattle.std.specs.Prelude.{Option};
    ghost use Rattle.in_syntax.specs.declared.faults.Refusal.{Refusal};

    ghost Value = { Option Refusal };

    ghost view = { λ f. f.refusal };
}

impl Findings {
    /// Nothing is found yet.
    pub fn none() -> Findings
        ensures { result ≡ None }
    {
        Findings {
            refusal: None,
            expected: Expected::Item,
            source: None,
            evidence: None,
        }
    }

    /// The refusal, if the text was refused.
    pub fn refusal(&self) -> Option<Refusal>
        ensures { result ≡ self.now }
    {
        self.refusal
    }

    /// The tokens with which a program continues where the grammar refuses the text.
    pub fn expected(&self) -> Expected {
        self.expected
    }

    /// The tree, if a pass that builds the declared parts refuses it. Later passes have no tree.
    pub fn source(&self) -> Option<&Source> {
        self.source.as_ref()
    }

    /// The parts that explain E10, E12 or E13, as `refusal_of` gives them.
    pub fn evidence(&self) -> Option<&Evidence> {
        self.evidence.as_ref()
    }

    /// The text is refused.
    pub(crate) fn refuse(&mut self, refusal: Refusal)
        ensures { self.new ≡ Some refusal }
    {
        self.refusal = Some(refusal);
    }
}
