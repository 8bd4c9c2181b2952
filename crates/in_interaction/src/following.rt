ghost use Rattle.std.specs.Prelude.{◌≡◌, ◌<◌, length};
ghost use Rattle.in_interaction.specs.Following.{end_of, port_of, most_turns, Lands, IsPartnerAfter, NewPort, IsOld};
ghost use Rattle.in_net.specs.Nets.{point_of};
ghost use Rattle.in_net.specs.Parts.{IsPointOf};
ghost use Rattle.in_net.specs.declared.nets.Point.TheVariants.{Port};

use in_net::{AgentNo, Net, Point, Rule};
use in_syntax::MAX_PORTS;
use std::marker::Model;

/// How often a path may go through the right member: it passes each boundary end at most twice, and two of them at each turn, and then
/// it lands.
const MOST_TURNS: u32 = 2 * MAX_PORTS as u32 + 1;

/// A site of an interaction: an active pair of a net, the rule of their symbols, how many auxiliary places the first of the two
/// has, and the numbers that the right member's agents get.
#[derive(Drop)]
pub(crate) struct Site<'a> {
    pub(crate) net: &'a Net,
    pub(crate) rule: &'a Rule,
    pub(crate) one: AgentNo,
    pub(crate) two: AgentNo,
    pub(crate) first: u32,
    pub(crate) names: &'a [AgentNo],
}

impl<'a> Model for Site<'a> {
    ghost use Rattle.in_interaction.specs.Following.{SiteParts, IsSite};

    ghost Value = { SiteParts };

    ghost view = { λ s. record { net = s.net.now; rule = s.rule.now; one = s.one; two = s.two; first = s.first; names = s.names.now } };

    ghost invariant = { λ s. IsSite (record { net = s.net.now; rule = s.rule.now; one = s.one; two = s.two; first = s.first; names = s.names.now }) };
}

impl<'a> Site<'a> {
    /// The boundary end of a port of the pair; `None` for other points.
    pub(crate) fn end_of(&self, point: Point) -> Option<u32>
        ensures { result ≡ end_of self.now.one self.now.two self.now.first point }
    {
        match point {
            Point::Port(agent, place) => {
                if place == 0 {
                    None
                } else if agent.0 == self.one.0 {
                    Some(place as u32 - 1)
                } else if agent.0 == self.two.0 {
                    Some(self.first + (place as u32 - 1))
                } else {
                    None
                }
            }
            Point::Free(_) => None,
        }
    }

    /// The port of the pair that is this boundary end.
    pub(crate) fn port_of(&self, end: u32) -> Point
        requires { end < length self.now.rule.member.free }
        ensures { result ≡ port_of self.now.one self.now.two self.now.first end }
    {
        if end < self.first {
            Point::Port(self.one, end as u8 + 1)
        } else {
            Point::Port(self.two, (end - self.first) as u8 + 1)
        }
    }

    /// The end of a path that came by an outer wire to this point: the point itself, unless it is a boundary end.
    fn land(&self, arrived: Point) -> Point
        requires { (v : _) × Lands self.now most_turns arrived v }
        ensures { (v : _) → Lands self.now most_turns arrived v → result ≡ v }
    {
        let mut at = arrived;
        for turn in 0..MOST_TURNS {
            match self.end_of(at) {
                None => return at,
                Some(end) => match self.rule.member().partner(Point::Free(end)) {
                    Point::Port(agent, place) => {
                        return Point::Port(self.names[agent.0 as usize], place);
                    }
                    Point::Free(other) => at = self.net.partner(self.port_of(other)),
                },
            }
        }
        // The path lands within that many turns, by a requirement.
        unreachable!()
    }

    /// The partner after the interaction of a point of the old net that stays.
    pub(crate) fn outer(&self, point: Point) -> Point
        requires { IsOld self.now point }
        ensures { IsPartnerAfter self.now (point_of point) result }
    {
        self.land(self.net.partner(point))
    }

    /// The partner of a new agent's port.
    pub(crate) fn inner(&self, agent: AgentNo, place: u8) -> Point
        requires { IsPointOf self.now.rule.member (Port agent place) }
        ensures { IsPartnerAfter self.now (NewPort self.now agent place) result }
    {
        match self.rule.member().partner(Point::Port(agent, place)) {
            Point::Port(other, there) => Point::Port(self.names[other.0 as usize], there),
            Point::Free(end) => self.land(self.net.partner(self.port_of(end))),
        }
    }
}
