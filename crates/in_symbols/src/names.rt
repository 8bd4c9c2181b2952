ghost use Rattle.std.specs.Prelude.{◌≡◌, ◌<◌, [], length};
ghost use Rattle.in_symbols.specs.Names.{number_in, name_in, Declares};

use indexmap::IndexSet;
use std::alloc::{AllocError, Global};
use std::marker::Model;

/// A namespace: its names, numbered from 0 in the order of their declaration. Contracts see the list of them.
pub struct Names {
    set: IndexSet<String>,
}

// By hand, so that each drop is a call: a derived one is written out in each proof, at each way out.
impl Drop for Names {
    fn drop(self) {
        let Names { set: _ } = self;
    }
}

impl Model for Names {
    ghost use Rattle.std.specs.Prelude.{List, ℕ, map, string_bytes};

    ghost Value = { List (List ℕ) };

    ghost view = { λ n. map string_bytes n.set.keys };
}

impl Names {
    pub fn new(alloc: Global) -> Names
        ensures { result ≡ [] }
    {
        Names {
            set: IndexSet::new(alloc),
        }
    }

    pub fn len(&self) -> usize
        ensures { result ≡ length self.now }
    {
        self.set.len()
    }

    /// Adds a name, and says whether it is new. A declared name changes nothing.
    pub fn declare(&mut self, alloc: Global, name: &str) -> Result<bool, AllocError>
        ensures { Declares self.old name.now self.new result }
    {
        let added = self.set.insert(String::from_str(alloc, name)?)?;
        Ok(added)
    }

    pub fn number_of(&self, name: &str) -> Option<usize>
        ensures { result ≡ number_in name.now self.now }
    {
        match self.set.get_index_of(name) {
            Some(number) => Some(number),
            None => None,
        }
    }

    pub fn name(&self, number: usize) -> &str
        requires { number < length self.now }
        ensures { result.now ≡ name_in number self.now }
    {
        self.set.get_index(number).unwrap().as_str()
    }
}
