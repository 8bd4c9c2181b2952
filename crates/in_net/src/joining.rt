ghost use Rattle.std.specs.Prelude.{◌≡◌, ◌<◌, ◌^◌, length, IfOk};
ghost use Rattle.in_net.specs.Counting.{IsNameInside, NamesInside, IsSeenInside};
ghost use Rattle.in_net.specs.Joining.{self_links, with_link, with_joints, merged, met, later_of, not_named, joins, joins_from, joined_spots, JointsInside, LinksInside, IsJoiningInside};

use crate::counting::{Seen, name_of, once_more, unseen};
use crate::reading::{Reading, TextJoint, TextSpot};
use in_syntax::{Place, with_room};
use sqlite_items::Items;
use std::alloc::{AllocError, Global};

/// The link of a spot: the number of its partner, its own number if it has none, and the last place on the way there.
#[derive(Clone, Copy)]
pub(crate) struct Link {
    pub(crate) to: usize,
    pub(crate) place: Place,
}

/// Each spot by itself.
fn unlinked(alloc: Global, count: usize) -> Result<Items<Link>, AllocError>
    ensures { IfOk result (λ links. links ≡ self_links 0 count) }
{
    let mut links = with_room(alloc, count)?;
    for to in 0..count {
        links.push(Link {
            to,
            place: Place {
                from: 0,
                to: 0,
                line: 1,
                col: 1,
            },
        })?;
    }
    Ok(links)
}

/// Joins two spots.
fn connect(links: &mut Items<Link>, one: usize, other: usize, place: Place)
    requires one { one < length links.old }
    requires other { other < length links.old }
    ensures { links.new ≡ with_link links.old one other place }
{
    links.set(one, Link { to: other, place });
    links.set(other, Link { to: one, place });
}

/// Joins the spots of each joint.
fn join_joints(links: &mut Items<Link>, joints: &[TextJoint])
    requires joints { JointsInside (length links.old) joints.now }
    requires count { length links.old < 2 ^ 64 }
    ensures { links.new ≡ with_joints links.old joints.now }
{
    for joint in joints {
        connect(links, joint.one + joint.port, joint.other, joint.place);
    }
}

/// The later of two places in the text.
fn later(one: Place, other: Place) -> Place
    ensures { result ≡ later_of one other }
{
    if other.from < one.from { one } else { other }
}

/// Connects the partners of two spots of one name, so that the wire continues through both. If the two spots are each other's partners, the wire is
/// closed, and its place is returned.
fn merge(links: &mut Items<Link>, one: usize, other: usize) -> Option<Place>
    requires one { one < length links.old }
    requires other { other < length links.old }
    requires links { LinksInside links.old }
    ensures { (links.new, result) ≡ merged links.old one other }
{
    let from = links.as_slice()[one];
    let on = links.as_slice()[other];
    links.set(
        one,
        Link {
            to: one,
            place: from.place,
        },
    );
    links.set(
        other,
        Link {
            to: other,
            place: on.place,
        },
    );
    if from.to == other {
        return Some(from.place);
    }
    connect(links, from.to, on.to, later(from.place, on.place));
    None
}

/// Adds a spot of a name whose earlier spots are `seen`: the second spot is joined to the first.
fn meet(links: &mut Items<Link>, seen: Seen, at: usize) -> Option<Place>
    requires at { at < length links.old }
    requires seen { IsSeenInside (length links.old) seen }
    requires links { LinksInside links.old }
    ensures { (links.new, result) ≡ met links.old seen at }
{
    match seen {
        Seen::Once(one) => merge(links, one, at),
        Seen::Never | Seen::Twice | Seen::Often => None,
    }
}

/// The joints so far: the partner of each spot, how often each name was seen, and the place of the first closed wire.
#[derive(Drop)]
struct Joining {
    links: Items<Link>,
    seen: Items<Seen>,
    closed: Option<Place>,
}

/// Nothing is joined by names yet.
fn begun(alloc: Global, links: Items<Link>, names: usize) -> Result<Joining, AllocError>
    ensures { IfOk result (λ j. j ≡ not_named links names) }
{
    Ok(Joining {
        links,
        seen: unseen(alloc, names)?,
        closed: None,
    })
}

/// Adds the next spot, and joins it if it is the second one of a name.
fn step(joining: &mut Joining, at: usize, spot: TextSpot)
    requires at { at < length joining.old.links }
    requires name { IsNameInside (length joining.old.seen) spot }
    requires inside { IsJoiningInside joining.old }
    ensures { joining.new ≡ joins joining.old at spot }
{
    if let Some(name) = name_of(spot) {
        let seen = joining.seen.as_slice()[name];
        let closed = meet(&mut joining.links, seen, at);
        joining.seen.set(name, once_more(seen, at));
        joining.closed = Place::earlier(joining.closed, closed);
    }
}

/// Joins the spots of each name.
fn join_names(joining: &mut Joining, spots: &[TextSpot])
    requires count { length joining.old.links ≡ length spots.now }
    requires names { NamesInside (length joining.old.seen) spots.now }
    requires inside { IsJoiningInside joining.old }
    ensures { joining.new ≡ joins_from 0 spots.now joining.old }
{
    for (at, spot) in spots.iter().enumerate() {
        step(joining, at, *spot);
    }
}

/// The partners of all spots of a text, and the place of its first closed wire, if there is one.
#[derive(Drop)]
pub(crate) struct Joined {
    pub(crate) links: Items<Link>,
    pub(crate) closed: Option<Place>,
}

/// Joins all spots that the text joins: first those of equations and arguments, then those of names.
pub(crate) fn join_all(alloc: Global, reading: &Reading) -> Result<Joined, AllocError>
    requires joints { JointsInside (length reading.now.spots) reading.now.joints }
    requires names { NamesInside (length reading.now.names) reading.now.spots }
    ensures { IfOk result (λ j. j ≡ joined_spots reading.now) }
{
    let mut links = unlinked(alloc, reading.spots.len())?;
    join_joints(&mut links, reading.joints.as_slice());
    let mut joining = begun(alloc, links, reading.names.len())?;
    join_names(&mut joining, reading.spots.as_slice());
    let Joining { links, closed, .. } = joining;
    Ok(Joined { links, closed })
}
