// The other ends of the wires of a member.
ghost use Rattle.std.specs.Prelude.{◌≡◌};
ghost use Rattle.in_compile.specs.Members.{joint_of};
ghost use Rattle.in_compile.specs.Storing.{IsNarrow};

use in_net::Point;
use std::marker::Model;

/// The end of a wire of a member: a place of one of its agents, by the agent's number and the place, of which 0 is the principal port, or
/// a boundary end.
#[derive(Clone, Copy, Debug, PartialEq, Eq)]
pub enum Joint {
    ToAgent(u32, u8),
    ToBoundary(u16),
}

impl Joint {
    /// The joint for a point of a net.
    pub(crate) fn of(point: Point) -> Joint
        requires { IsNarrow point }
        ensures { result ≡ joint_of point }
    {
        match point {
            Point::Port(agent, place) => Joint::ToAgent(agent.0, place),
            Point::Free(end) => Joint::ToBoundary(end as u16),
        }
    }
}

/// The second word of a joint that leads to a boundary end.
const AT_BOUNDARY: u32 = u32::MAX;

/// A joint as it is stored: two words of one width, so that it is read and written as a whole. They are an agent's number and the place, or
/// a boundary end and `AT_BOUNDARY`.
#[derive(Drop)]
pub(crate) struct StoredJoint {
    number: u32,
    place: u32,
}

impl Model for StoredJoint {
    ghost use Rattle.in_compile.specs.declared.joints.Joint.{Joint};
    ghost use Rattle.in_compile.specs.Storing.{joint_from, FitsJoint};

    ghost Value = { Joint };

    ghost view = { λ s. joint_from s.number s.place };

    ghost invariant = { λ s. FitsJoint s.number s.place };
}

impl StoredJoint {
    /// This joint, stored.
    pub(crate) fn of(joint: Joint) -> StoredJoint
        ensures { result ≡ joint }
    {
        match joint {
            Joint::ToAgent(agent, place) => StoredJoint {
                number: agent,
                place: place as u32,
            },
            Joint::ToBoundary(end) => StoredJoint {
                number: end as u32,
                place: AT_BOUNDARY,
            },
        }
    }

    /// The joint that is stored here.
    pub(crate) fn joint(&self) -> Joint
        ensures { result ≡ self.now }
    {
        if self.place == AT_BOUNDARY {
            Joint::ToBoundary(self.number as u16)
        } else {
            Joint::ToAgent(self.number, self.place as u8)
        }
    }
}
