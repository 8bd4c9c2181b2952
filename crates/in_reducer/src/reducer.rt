// A net in cells that is reduced in place.
use crate::body::Body;
use std::marker::Model;

/// A sound net of a program over a number of cells: its active pairs are in a queue, and each interaction is done in place, without taking
/// memory. It need not be one that the program reaches, and its free ends are its own: each is one of the program's, with its name and type,
/// or an end of a wire that was cut, with its type and no name.
///
/// A round lends its cells to workers, so its body can be named outside. Code that changes it proves the invariant again.
pub struct Reducer<'a> {
    pub body: Body<'a>,
}

impl<'a> Model for Reducer<'a> {
    ghost use Rattle.in_reducer.specs.Machines.{MachineParts};

    ghost Value = { MachineParts };

    ghost use Rattle.in_reducer.specs.Inside.{reducer_view, IsKept};

    ghost view = { λ r. reducer_view r.body };

    ghost invariant = { λ r. IsKept r.body };
}

// Its arena can be dropped, since no cell is on lease between two calls.
impl<'a> Drop for Reducer<'a> {
    fn drop(self) {
        let Reducer { body } = self;
        let Body {
            checked: _,
            arena: _,
            free: _,
            ends: _,
            queue: _,
            tools: _,
        } = body;
    }
}
