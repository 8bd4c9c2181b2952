ghost use Rattle.std.specs.Prelude.{◌≡◌, ◌<◌, ◌≤◌, length};
ghost use Rattle.in_syntax.specs.TextLimits.{most_member_agents};
ghost use Rattle.in_net.specs.Parts.{IsWhole};
ghost use Rattle.in_net.specs.Rules.{place_of_head};

use crate::nets::{Cell, Net};
use in_base::use_invariant;
use in_syntax::{Place, SymbolNo};
use std::marker::Model;

/// A rule. Lafont 1990: its left member is an active pair, so two symbols; its right member is a net, whose free ends are the
/// auxiliary places of the two symbols, each declared with that place's type: the places of the first of the `heads`, and then
/// those of the second.
#[derive(Drop)]
pub struct Rule {
    pub(crate) written: (SymbolNo, SymbolNo),
    pub(crate) heads: (SymbolNo, SymbolNo),
    pub(crate) head_places: (Place, Place),
    pub(crate) member: Net,
}

// Contracts see all that an accessor reads. A right member has few agents.
impl Model for Rule {
    ghost use Rattle.std.specs.Prelude.{◌≤◌, length};
    ghost use Rattle.in_syntax.specs.TextLimits.{most_member_agents};
    ghost use Rattle.in_net.specs.Rules.{RuleParts};

    ghost Value = { RuleParts };

    ghost view = { λ r. record { written = r.written; heads = r.heads; head_places = r.head_places; member = r.member } };

    ghost invariant = { λ r. length r.member.cells ≤ most_member_agents };
}

impl Rule {
    /// The two symbols in the order of the text.
    pub fn written(&self) -> (SymbolNo, SymbolNo)
        ensures { result ≡ self.now.written }
    {
        self.written
    }

    /// The two symbols, the constructor first; in the order of the text if their principal types aren't opposite.
    pub fn heads(&self) -> (SymbolNo, SymbolNo)
        ensures { result ≡ self.now.heads }
    {
        self.heads
    }

    /// The place of a head's name: number 0 is the first head in the text, 1 the second.
    pub fn head_place(&self, number: u8) -> Place
        requires { number < 2 }
        ensures { result ≡ place_of_head self.now number }
    {
        if number == 0 {
            self.head_places.0
        } else {
            self.head_places.1
        }
    }

    /// The right member.
    pub fn member(&self) -> &Net
        ensures { result.now ≡ self.now.member }
    {
        &self.member
    }

    /// The agents of the right member by number, as `cells` gives them; there are at most `MOST_MEMBER_AGENTS`.
    pub fn member_cells(&self) -> &[Option<Cell>]
        ensures cells { result.now ≡ self.now.member.cells }
        ensures few { length self.now.member.cells ≤ most_member_agents }
        ensures whole { IsWhole self.now.member }
    {
        use_invariant!(self.member);
        self.member.cells()
    }
}
