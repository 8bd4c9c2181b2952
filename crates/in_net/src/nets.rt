ghost use Rattle.std.specs.Prelude.{◌≡◌, ◌<◌, length, count_by, is_some, IsTrue, slice_get};
ghost use Rattle.in_net.specs.Parts.{IsWhole, as_built, IsPointOf, partner_in, symbol_in, wire_in, wire_place_in, agent_place_in, free_type_in, free_name_in};

use in_symbols::PortType;
use in_syntax::{Place, SymbolNo, Text};
use sqlite_items::Items;
use std::marker::Model;

/// The number of an agent. As built, agents are numbered from 0 by the places of their names.
#[derive(Clone, Copy, Debug, Default, PartialEq, Eq)]
pub struct AgentNo(pub u32);

/// A port of an agent, by its place (0 is the principal port), or a free end by its number.
#[derive(Clone, Copy, Debug, PartialEq, Eq)]
pub enum Point {
    Port(AgentNo, u8),
    Free(u32),
}

impl Point {
    ghost use Rattle.std.specs.Prelude.{◌≢◌, MatchOption};
    ghost use Rattle.in_net.specs.declared.nets.AgentNo.{AgentNo};
    ghost use Rattle.in_net.specs.declared.nets.Point.TheVariants.{Port};

    /// The agent whose principal port this is.
    pub fn principal(self) -> Option<AgentNo>
        ensures { MatchOption result ((x : AgentNo) → self ≢ Port x 0) (λ x. self ≡ Port x 0) }
    {
        match self {
            Point::Port(agent, place) => { if place == 0 { Some(agent) } else { None } }
            Point::Free(_) => None,
        }
    }
}

/// An agent: its symbol, and the partner of each of its places.
#[derive(Drop)]
pub struct Cell {
    pub symbol: SymbolNo,
    pub ends: Items<Point>,
}

/// A free end: its name, the type that it is declared with, and its partner.
#[derive(Drop)]
pub(crate) struct FreeEnd {
    pub(crate) name: Text,
    pub(crate) kind: PortType,
    pub(crate) end: Point,
}

/// Two points that are joined, and the place of the last joint between them in the text.
#[derive(Clone, Copy)]
pub struct Wire {
    pub one: Point,
    pub other: Point,
    pub place: Place,
}

/// A net. Lafont 1990: agents, each with a symbol, and wires, each of which joins two points, a point being a port or a free
/// end; each point is on exactly one wire.
pub struct Net {
    pub(crate) cells: Items<Option<Cell>>,
    pub(crate) free: Vec<FreeEnd>,
    pub(crate) wires: Items<Wire>,
    pub(crate) places: Items<Place>,
    pub(crate) built: bool,
}

// By hand, so that each drop is a call: a derived one is written out in each proof, at each way out.
impl Drop for Net {
    fn drop(self) {
        let Net {
            cells: _,
            free: _,
            wires: _,
            places: _,
            built: _,
        } = self;
    }
}

// Contracts see all that an accessor reads. `specs/Parts.antt` says which net that is.
impl Model for Net {
    ghost use Rattle.in_net.specs.Parts.{Parts, IsWhole};

    ghost Value = { Parts };

    ghost view = { λ n. record { cells = n.cells; free = n.free.items; wires = n.wires; places = n.places; built = n.built } };

    ghost invariant = { λ n. IsWhole (record { cells = n.cells; free = n.free.items; wires = n.wires; places = n.places; built = n.built }) };
}

impl Net {
    /// The net of these parts, with an agent at each cell.
    pub(crate) fn built(
        cells: Items<Option<Cell>>,
        free: Vec<FreeEnd>,
        wires: Items<Wire>,
        places: Items<Place>,
    ) -> Net
        requires { IsWhole (as_built cells free.items wires places) }
        ensures { result ≡ as_built cells free.items wires places }
    {
        Net {
            cells,
            free,
            wires,
            places,
            built: true,
        }
    }

    /// The agents by number, with the partner of each of their places; `None` if a number has no agent.
    pub fn cells(&self) -> &[Option<Cell>]
        ensures cells { result.now ≡ self.now.cells }
        ensures whole { IsWhole self.now }
    {
        self.cells.as_slice()
    }

    /// How many agents the net has.
    pub fn agents(&self) -> u32
        ensures count { result ≡ count_by is_some self.now.cells }
        ensures whole { IsWhole self.now }
    {
        self.cells
            .as_slice()
            .iter()
            .filter(|cell| cell.is_some())
            .count() as u32
    }

    /// The symbol of the agent of that number, if there is one.
    pub fn symbol(&self, agent: AgentNo) -> Option<SymbolNo>
        ensures { result ≡ symbol_in self.now agent.0 }
    {
        match self.cells.get(agent.0 as usize) {
            Some(Some(cell)) => Some(cell.symbol),
            _ => None,
        }
    }

    /// The point on the other end of the wire at this point.
    pub fn partner(&self, point: Point) -> Point
        requires { IsPointOf self.now point }
        ensures { partner_in self.now point ≡ Some result }
    {
        match point {
            Point::Port(agent, place) => match &self.cells.as_slice()[agent.0 as usize] {
                Some(cell) => cell.ends.as_slice()[place as usize],
                // A point of the net is a port of an agent that is there.
                None => unreachable!(),
            },
            Point::Free(number) => self.free.as_slice()[number as usize].end,
        }
    }

    /// How many wires the net has.
    pub fn wires(&self) -> u32
        ensures { result ≡ length self.now.wires }
    {
        self.wires.len() as u32
    }

    /// The two points of a wire. As built, wires are numbered from 0 by their places, no two of which are equal, and the first of the
    /// two points comes first: free ends by number, then the ports of each agent in turn, by place.
    pub fn wire(&self, number: u32) -> (Point, Point)
        requires { number < length self.now.wires }
        ensures wire { Some result ≡ wire_in self.now number }
        ensures points { IsPointOf self.now result.0 × IsPointOf self.now result.1 }
    {
        let wire = &self.wires.as_slice()[number as usize];
        (wire.one, wire.other)
    }

    /// The place of a wire in the text: the last one among the `~` and the first tokens of arguments that it passes. That it is the
    /// last one is this project's own choice.
    pub fn wire_place(&self, number: u32) -> Place
        requires number { number < length self.now.wires }
        requires built { IsTrue self.now.built }
        ensures { Some result ≡ wire_place_in self.now number }
    {
        self.wires.as_slice()[number as usize].place
    }

    /// The place of the agent's name in the text.
    pub fn agent_place(&self, agent: AgentNo) -> Place
        requires agent { agent.0 < length self.now.cells }
        requires built { IsTrue self.now.built }
        ensures { Some result ≡ agent_place_in self.now agent.0 }
    {
        self.places.as_slice()[agent.0 as usize]
    }

    /// How many free ends the net has.
    pub fn free_ends(&self) -> u32
        ensures { result ≡ length self.now.free }
    {
        self.free.len() as u32
    }

    /// The type that a free end is declared with.
    pub fn free_type(&self, number: u32) -> PortType
        requires { number < length self.now.free }
        ensures { Some result ≡ free_type_in self.now number }
    {
        self.free.as_slice()[number as usize].kind
    }

    /// The name of a free end.
    pub fn free_name(&self, number: u32) -> &str
        requires { number < length self.now.free }
        ensures { Some result.now ≡ free_name_in self.now number }
    {
        self.free.as_slice()[number as usize].name.as_str()
    }

    /// Whether the net is as built: no interaction happened in it, and its agents and wires have places in the text.
    pub fn is_built(&self) -> bool
        ensures { result ≡ self.now.built }
    {
        self.built
    }
}
