ghost use Rattle.std.specs.Prelude.{◌≡◌};
ghost use Rattle.in_syntax.specs.Refusals.{refusal_of, refused, earlier_refusal};

use crate::places::Place;
use std::alloc::AllocError;

/// The kind of a program's fault. The codes are this project's own choice.
#[derive(Clone, Copy, Debug, PartialEq, Eq)]
pub enum Code {
    /// No token begins here, or no well-formed character.
    E01,
    /// An unexpected token.
    E02,
    /// A limit is passed.
    E03,
    /// A name is declared twice in its namespace.
    E04,
    /// A type that isn't declared.
    E05,
    /// A name before `(` or `[` that is no symbol.
    E06,
    /// The number of arguments isn't the arity.
    E07,
    /// A variable that doesn't occur twice, or a free name that doesn't occur once.
    E08,
    /// A closed wire.
    E09,
    /// A wire whose two types aren't opposite.
    E10,
    /// The heads of a rule whose principal types aren't opposite.
    E11,
    /// A rule that isn't semi-simple.
    E12,
    /// An initial net that isn't semi-simple.
    E13,
    /// A second rule for a pair of symbols.
    E14,
    /// No rule for a matching pair of symbols.
    E15,
}

/// Why a program is refused, and where.
#[derive(Clone, Copy, Debug, PartialEq, Eq)]
pub struct Refusal {
    pub code: Code,
    pub place: Place,
    /// The earlier declared symbol of a pair without a rule; nothing for all other codes.
    pub other: Option<Place>,
}

impl Refusal {
    /// The refusal of this code at the place, without another place.
    pub fn at(code: Code, place: Place) -> Refusal
        ensures { result ≡ refusal_of code place }
    {
        Refusal {
            code,
            place,
            other: None,
        }
    }

    /// The refusal of this code at the place, if there is one.
    pub fn found(code: Code, place: Option<Place>) -> Option<Refusal>
        ensures { result ≡ refused code place }
    {
        match place {
            Some(place) => Some(Refusal::at(code, place)),
            None => None,
        }
    }

    /// The refusal at the earlier place; the first, if both begin at one byte.
    pub fn earlier(first: Option<Refusal>, second: Option<Refusal>) -> Option<Refusal>
        ensures { result ≡ earlier_refusal first second }
    {
        match (first, second) {
            (Some(r), Some(s)) => Some(if s.place.from < r.place.from { s } else { r }),
            (Some(r), None) => Some(r),
            (None, found) => found,
        }
    }
}

/// A refusal, or that memory ran out.
#[derive(Debug, Drop)]
pub enum Fault {
    Refused(Refusal),
    Memory(AllocError),
}

impl From<AllocError> for Fault {
    ghost use Rattle.in_syntax.specs.declared.faults.Fault.TheVariants as fault;

    ghost from_gives = { λ e r. r ≡ fault.Memory e };

    fn from(error: AllocError) -> Fault {
        Fault::Memory(error)
    }
}
