// The sides of boundary ends.
ghost use Rattle.std.specs.Prelude.{◌≡◌, ◌≢◌, ◌≤◌, ◌<◌, ◌+◌, ◌^◌, ℕ, length, Some, slice_get};
ghost use Rattle.in_arena.specs.declared.content.End.TheVariants.{Cell};
ghost use Rattle.in_compile.specs.declared.joints.Joint.{Joint as Target};
ghost use Rattle.in_compile.specs.Members.{IsAtPort};
ghost use Rattle.in_reducer.specs.Inside.{most_ends, most_free_ends};
ghost use Rattle.in_reducer.specs.Sides.{port_at, end_there, outer_of, inner_of, AreSetBelow, HasPort, HasJoint};

use in_arena::{Arena, CellNo, End, EndWord};
use in_base::use_promise;
use in_compile::{Joint, Placed, Template};

/// Two agents that interact, the one with the first boundary ends, and the number of these.
#[derive(Clone, Copy)]
pub(crate) struct Pair {
    pub(crate) one: CellNo,
    pub(crate) other: CellNo,
    pub(crate) first_ends: u8,
}

/// The next interaction: the pair, the template of its rule, the cells of the right member beside it, and the number of the net's free ends.
#[derive(Clone, Copy)]
pub(crate) struct PlacedPair<'b> {
    pub(crate) pair: Pair,
    pub(crate) template: &'b Template,
    pub(crate) placed: &'b Placed,
    pub(crate) own: u32,
    ghost few_own: { own ≤ most_free_ends },
    ghost few_ends: { length template.now.member.joints ≤ most_ends },
}

impl Pair {
    /// The port that is this boundary end.
    #[inline(always)]
    pub(crate) fn port(self, end: u8) -> (CellNo, u8)
        requires { end < 32 }
        ensures { result ≡ port_at self end }
    {
        if end < self.first_ends {
            (self.one, end + 1)
        } else {
            (self.other, end - self.first_ends + 1)
        }
    }

    /// The outer side of a boundary end, if the end is the pair's port there; the sides are numbered from `from` on. Any other end stays.
    #[inline(always)]
    fn outer(self, from: u32, end: EndWord) -> EndWord
        requires from { from < 2 ^ 24 }
        requires one { end ≢ Cell self.one 0 }
        requires other { end ≢ Cell self.other 0 }
        ensures { result ≡ outer_of self from end }
    {
        let End::Cell(cell, place) = end.end() else {
            return end;
        };
        if cell == self.one {
            return EndWord::free(from + (u32::from(place) - 1));
        }
        if cell == self.other {
            return EndWord::free(from + u32::from(self.first_ends) + (u32::from(place) - 1));
        }
        end
    }
}

/// The end for a joint of the right member, if its agents have these cells.
#[inline(always)]
pub(crate) fn inner(placed: &Placed, from: u32, joint: Joint) -> EndWord
    requires from { from < 2 ^ 24 }
    requires there { HasJoint placed.now.cells joint }
    requires port { IsAtPort joint }
    ensures { result ≡ inner_of placed.now.cells from joint }
{
    match joint {
        Joint::ToAgent(agent, place) => EndWord::place_of(placed.index(agent), place),
        Joint::ToBoundary(end) => EndWord::free(from + u32::from(end)),
    }
}

/// Sets the sides of all boundary ends of a pair that is still live, after the net's own free ends: first the outer sides, then the inner ones.
pub(crate) fn set_sides(arena: &Arena, next: &PlacedPair, ends: &mut [EndWord])
    requires ports { (e : ℕ) → e < length next.now.template.now.member.joints → HasPort arena.now next.now.pair e }
    requires joints { (e : ℕ) (j : Target) → slice_get next.now.template.now.member.joints e ≡ Some j → HasJoint next.now.placed.now.cells j }
    requires room { next.now.own + length next.now.template.now.member.joints + length next.now.template.now.member.joints ≤ length ends.old }
    ensures { AreSetBelow next.now.pair arena.now next.now.template.now.member.joints next.now.placed.now.cells next.now.own (length next.now.template.now.member.joints) (length next.now.template.now.member.joints) ends.old ends.new }
{
    use_promise!(next.template.member().is_sound());
    let own = next.own;
    let many = next.template.boundary_ends();
    let inner_sides = own + u32::from(many);
    for end in 0..many {
        let (cell, place) = next.pair.port(end);
        ends[own as usize + end as usize] = next.pair.outer(own, arena.word(cell, place));
        ends[inner_sides as usize + end as usize] = inner(
            next.placed,
            inner_sides,
            next.template.joint(end),
        );
    }
}
