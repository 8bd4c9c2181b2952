ghost use Rattle.std.specs.Prelude.{◌≡◌, [], IfOk};
ghost use Rattle.in_print.specs.Points.{point_at};
ghost use Rattle.in_print.specs.Writings.{number_at, met_after};

use in_arena::End;
use indexmap::IndexSet;
use std::alloc::{AllocError, Global};
use std::marker::Model;

/// The wires that were met, each by the end where it was met, numbered from 1 in their order. Contracts see the points of these ends,
/// the last one first.
#[derive(Drop)]
pub(crate) struct Numbers {
    met: IndexSet<End>,
}

impl Model for Numbers {
    ghost use Rattle.std.specs.Prelude.{List, ℕ, map, reverse};
    ghost use Rattle.in_net.specs.Nets.{Point};
    ghost use Rattle.in_print.specs.Points.{point_at};

    ghost Value = { List (Point ℕ) };

    ghost view = { λ n. reverse (map point_at n.met.keys) };
}

impl Numbers {
    pub fn new(alloc: Global) -> Numbers
        ensures { result ≡ [] }
    {
        Numbers {
            met: IndexSet::new(alloc),
        }
    }

    /// The number of the wire between these ends: a new one, if the wire was not met before.
    pub fn number(&mut self, end: End, partner: End) -> Result<usize, AllocError>
        ensures number { IfOk result (λ k. k ≡ number_at self.old (point_at end) (point_at partner)) }
        ensures met { IfOk result (λ k. self.new ≡ met_after self.old (point_at end) (point_at partner)) }
    {
        let count = self.met.len();
        let known = self
            .met
            .get_index_of(&end)
            .max(self.met.get_index_of(&partner));
        match known {
            Some(index) => Ok(index + 1),
            None => {
                self.met.insert(end)?;
                Ok(count + 1)
            }
        }
    }
}
