// The agents of a part.
ghost use Rattle.in_phases.specs.Marks.{NoOtherIsMarked};

use in_reducer::CellNo;

/// An auxiliary port of an agent, by its place.
#[derive(Clone, Copy)]
pub(crate) struct OpenPort {
    pub(crate) cell: CellNo,
    pub(crate) place: u8,
}

/// Agents of a net, each once, and for each number whether it is the number of one of them; and those of their auxiliary ports that lead to no
/// principal port: no other wires can lead out of whole trees. It is used for one part after another.
#[derive(Drop)]
pub(crate) struct Branch {
    pub(crate) agents: Vec<CellNo>,
    pub(crate) marks: Vec<bool>,
    pub(crate) ports: Vec<OpenPort>,
    ghost no_other: { NoOtherIsMarked agents.items marks.items },
}
