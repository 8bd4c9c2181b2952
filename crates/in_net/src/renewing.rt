ghost use Rattle.std.specs.Prelude.{◌≡◌, List, length};
ghost use Rattle.in_net.specs.Parts.{IsWhole};
ghost use Rattle.in_net.specs.Renewing.{IsRenewed, Rejoins, renewed};
ghost use Rattle.in_net.specs.declared.nets.FreeEnd.{FreeEnd};

use crate::nets::{Cell, FreeEnd, Net, Point, Wire};
use sqlite_items::Items;
use std::alloc::Global;

/// Gives each free end its partner.
fn rejoin(free: &mut Vec<FreeEnd>, ends: &[Point])
    requires { length ends.now ≡ length free.old.items }
    ensures { Rejoins ends.now free.old.items free.new.items }
{
    for number in 0..ends.len() {
        free[number].end = ends[number];
    }
}

impl Net {
    /// Replaces the net's agents and wires by these, and the partner of each free end by that in `ends`, by number.
    ///
    /// Free ends keep their names and types. The net is then no longer as built: its agents and wires have no places. There is an end
    /// for each free end, and agents, free ends and wires together are a net, each point in exactly one wire.
    pub fn renew(
        &mut self,
        alloc: Global,
        cells: Items<Option<Cell>>,
        ends: &[Point],
        wires: Items<Wire>,
    )
        requires ends { length ends.now ≡ length self.old.free }
        requires whole { (free : List FreeEnd) → Rejoins ends.now self.old.free free → IsWhole (renewed cells free wires) }
        ensures { IsRenewed self.old cells ends.now wires self.new }
    {
        self.cells = cells;
        rejoin(&mut self.free, ends);
        self.wires = wires;
        self.places = Items::new(alloc);
        self.built = false;
    }
}
