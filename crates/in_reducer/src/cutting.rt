// A wire that is cut.
ghost use Rattle.std.specs.Prelude.{◌≡◌, ◌≤◌, ◌+◌, length, OnErr, OnOk, vec_len, vec_capacity};
ghost use Rattle.in_typing.specs.Typed.{opposite};
ghost use Rattle.in_reducer.specs.Cutting.{CanCut, CutsAt};
ghost use Rattle.in_reducer.specs.Inside.{most_free_ends};

use crate::body::OwnEnd;
use crate::reducer::Reducer;
use in_arena::{CellNo, EndWord};
use in_cells::cut;
use in_symbols::PortType;
use std::alloc::AllocError;

/// The type at the other point of a wire.
fn opposite_of(kind: PortType) -> PortType
    ensures { result ≡ opposite kind }
{
    PortType {
        kind: kind.kind,
        output: !kind.output,
    }
}

/// Takes room for two more free ends. Both lists keep their elements.
fn make_room(free: &mut Vec<OwnEnd>, ends: &mut Vec<EndWord>) -> Result<(), AllocError>
    ensures free { free.new.items ≡ free.old.items }
    ensures ends { ends.new.items ≡ ends.old.items }
    ensures free_room { OnOk result (vec_len free.new + 2 ≤ vec_capacity free.new) }
    ensures ends_room { OnOk result (vec_len ends.new + 2 ≤ vec_capacity ends.new) }
{
    free.reserve(2)?;
    ends.reserve(2)
}

impl<'a> Reducer<'a> {
    /// Cuts the wire at a place of an agent: it must exist, and its wire be no active pair. The two points are then at new free ends, which come last
    /// and have no names, but fitting types. There are at most 65,536 free ends. Refused only when out of memory, and then the reducer is as it was.
    pub fn cut(&mut self, cell: CellNo, place: u8) -> Result<(), AllocError>
        requires can { CanCut self.old cell.0 place }
        requires few { length self.old.free + 2 ≤ most_free_ends }
        ensures cut { OnOk result (CutsAt self.old cell.0 place self.new) }
        ensures refused { OnErr result (self.new ≡ self.old) }
    {
        let body = &mut self.body;
        let own = body.free.len() as u32;
        let kind = body.checked.symbols().port(body.symbol(cell), place);
        make_room(&mut body.free, &mut body.ends)?;
        cut(&mut body.arena, body.ends.as_mut_slice(), own, cell, place);
        body.free.push_reserved(OwnEnd::Cut(kind));
        body.free.push_reserved(OwnEnd::Cut(opposite_of(kind)));
        body.ends.push_reserved(EndWord::free(0));
        body.ends.push_reserved(EndWord::free(0));
        Ok(())
    }
}
