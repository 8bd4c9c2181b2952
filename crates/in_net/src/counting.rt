ghost use Rattle.std.specs.Prelude.{◌≡◌, length, IfOk};
ghost use Rattle.in_net.specs.Counting.{name_of, seen_again, none_seen, third_time, counts_spot, counts_from, nothing_counted, lonely_place, lonely, miscounted, IsNameInside, NamesInside};

use crate::reading::TextSpot;
use in_syntax::{Place, SourceFree, with_room};
use sqlite_items::Items;
use std::alloc::{AllocError, Global};

/// How often a name was met, and its spot if it was met once.
#[derive(Clone, Copy)]
pub(crate) enum Seen {
    Never,
    Once(usize),
    Twice,
    Often,
}

/// The number of a spot's name, if it has one.
pub(crate) fn name_of(spot: TextSpot) -> Option<usize>
    ensures { result ≡ name_of spot }
{
    match spot {
        TextSpot::Port(..) | TextSpot::End(_) => None,
        TextSpot::Free(_, name) => Some(name),
        TextSpot::Occurrence(name, _) => Some(name),
    }
}

/// How often a name is met after the spot of that number.
pub(crate) fn once_more(seen: Seen, at: usize) -> Seen
    ensures { result ≡ seen_again seen at }
{
    match seen {
        Seen::Never => Seen::Once(at),
        Seen::Once(_) => Seen::Twice,
        Seen::Twice | Seen::Often => Seen::Often,
    }
}

/// No name was met.
pub(crate) fn unseen(alloc: Global, names: usize) -> Result<Items<Seen>, AllocError>
    ensures { IfOk result (λ seen. seen ≡ none_seen names) }
{
    let mut seen = with_room(alloc, names)?;
    for _ in 0..names {
        seen.push(Seen::Never)?;
    }
    Ok(seen)
}

/// The counts so far: how often each name occurs, and the place of the first third occurrence.
#[derive(Drop)]
struct Counting {
    seen: Items<Seen>,
    third: Option<Place>,
}

/// The place of the spot, if it is the third one of its name.
fn third_time(seen: Seen, spot: TextSpot) -> Option<Place>
    ensures { result ≡ third_time seen spot }
{
    match (seen, spot) {
        (Seen::Twice, TextSpot::Occurrence(_, place)) => Some(place),
        _ => None,
    }
}

/// Counts a spot at its name.
fn count(counting: &mut Counting, at: usize, spot: TextSpot)
    requires { IsNameInside (length counting.old.seen) spot }
    ensures { counting.new ≡ counts_spot counting.old at spot }
{
    if let Some(name) = name_of(spot) {
        let before = counting.seen.as_slice()[name];
        counting.seen.set(name, once_more(before, at));
        counting.third = Place::earlier(counting.third, third_time(before, spot));
    }
}

/// Counts how often each name occurs.
fn counts(alloc: Global, names: usize, spots: &[TextSpot]) -> Result<Counting, AllocError>
    requires { NamesInside names spots.now }
    ensures { IfOk result (λ counting. counting ≡ counts_from 0 spots.now (nothing_counted names)) }
{
    let mut counting = Counting {
        seen: unseen(alloc, names)?,
        third: None,
    };
    for (at, spot) in spots.iter().enumerate() {
        count(&mut counting, at, *spot);
    }
    Ok(counting)
}

/// The place of the only spot of a name, if it occurs once: a variable's occurrence, or the declaration of a free name.
fn lonely_place(seen: Seen, spots: &[TextSpot], free: &[SourceFree]) -> Option<Place>
    ensures { result ≡ lonely_place spots.now free.now seen }
{
    let Seen::Once(at) = seen else {
        return None;
    };
    match spots.get(at) {
        Some(TextSpot::Occurrence(_, place)) => Some(*place),
        Some(TextSpot::Free(number, _)) => match free.get(*number) {
            Some(end) => Some(end.name.place),
            None => None,
        },
        _ => None,
    }
}

/// The first of these places.
fn lonely(seen: &[Seen], spots: &[TextSpot], free: &[SourceFree]) -> Option<Place>
    ensures { result ≡ lonely spots.now free.now seen.now }
{
    let mut found = None;
    for seen in seen {
        found = Place::earlier(found, lonely_place(*seen, spots, free));
    }
    found
}

/// The place of the first name that doesn't occur twice, as a variable does in the body, and a free name at its declaration and in the body: its
/// only spot, or its third one.
pub(crate) fn miscounted(
    alloc: Global,
    names: usize,
    spots: &[TextSpot],
    free: &[SourceFree],
) -> Result<Option<Place>, AllocError>
    requires { NamesInside names spots.now }
    ensures { IfOk result (λ place. place ≡ miscounted names spots.now free.now) }
{
    let Counting { seen, third } = counts(alloc, names, spots)?;
    Ok(Place::earlier(third, lonely(seen.as_slice(), spots, free)))
}
