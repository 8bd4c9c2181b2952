ghost use Rattle.std.specs.Prelude.{◌≡◌, ◌+◌, ◌<◌, ◌++◌, ◌∷◌, [], length, slice_index_or};
ghost use Rattle.in_syntax.specs.Grammar.{max_ports};

use crate::wired::MOST_PORTS;
use std::marker::Model;

/// The class of each port of a node. They are in place, since a node has few: a list for each node would take more memory than the node.
#[derive(Drop)]
pub struct PortClasses {
    classes: [u8; MOST_PORTS],
    count: u8,
}

// Contracts see the list of them.
impl Model for PortClasses {
    ghost use Rattle.std.specs.Prelude.{List, ℕ, ◌+◌, ◌≤◌, take};
    ghost use Rattle.in_syntax.specs.Grammar.{max_ports};

    ghost Value = { List ℕ };

    ghost view = { λ c. take c.count c.classes };

    ghost invariant = { λ c. c.count ≤ max_ports + 1 };
}

impl PortClasses {
    /// Of no port.
    pub fn new() -> PortClasses
        ensures { result ≡ [] }
    {
        PortClasses {
            classes: [0; MOST_PORTS],
            count: 0,
        }
    }

    /// How many ports there are.
    pub fn len(&self) -> usize
        ensures { result ≡ length self.now }
    {
        self.count as usize
    }

    /// The class of the port of that number.
    pub fn get(&self, port: usize) -> u8
        requires { port < length self.now }
        ensures { result ≡ slice_index_or self.now port 0 }
    {
        self.classes[port]
    }

    /// One more port, which is of that class.
    pub fn push(&mut self, class: u8)
        requires { length self.old < max_ports + 1 }
        ensures { self.new ≡ self.old ++ class ∷ [] }
    {
        self.classes[self.count as usize] = class;
        self.count += 1;
    }
}
