ghost use Rattle.std.specs.Prelude.{◌≡◌, [], ◌∷◌, length, OnOk, MatchOption};

use crate::tree::Term;
use std::alloc::{AllocError, Global};
use std::marker::Model;

/// The terms that are open, each an argument of the one before; contracts see the innermost first.
#[derive(Drop)]
pub struct Stack {
    terms: Vec<Term>,
}

impl Model for Stack {
    ghost use Rattle.std.specs.Prelude.{List, reverse};
    ghost use Rattle.std.specs.Coded.{coded_list};
    ghost use Rattle.in_syntax.specs.declared.tree.Term.{Term};
    ghost use Rattle.in_syntax.specs.contracts.tree.Term as term;

    ghost Value = { List Term };

    ghost coded = { coded_list term.the_row.coded };

    ghost view = { λ s. reverse s.terms.items };
}

impl Stack {
    pub fn new(alloc: Global) -> Stack
        ensures { result ≡ [] }
    {
        Stack {
            terms: Vec::new(alloc),
        }
    }

    pub fn len(&self) -> usize
        ensures { result ≡ length self.now }
    {
        self.terms.len()
    }

    pub fn push(&mut self, term: Term) -> Result<(), AllocError>
        ensures { OnOk result (self.new ≡ term ∷ self.old) }
    {
        self.terms.push(term)?;
        Ok(())
    }

    pub fn pop(&mut self) -> Option<Term>
        ensures { MatchOption result ((self.old ≡ []) × (self.new ≡ [])) (λ term. self.old ≡ term ∷ self.new) }
    {
        self.terms.pop()
    }
}
