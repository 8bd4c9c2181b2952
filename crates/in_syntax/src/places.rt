ghost use Rattle.std.specs.Prelude.{◌≡◌};
ghost use Rattle.in_syntax.specs.Refusals.{earlier};

/// A place in a text.
///
/// `from` and `to` are offsets in bytes, the first byte and the one after the last; if they are equal, the place is
/// between two characters. `line` and `col` are those of `from`, both counted from 1: lines end with a line feed, and
/// columns are characters. That columns are characters is this project's own choice. 32 bits are enough for each, since a
/// text has at most 67,108,864 bytes by any limits; a long text has many places.
#[derive(Clone, Copy, Debug, PartialEq, Eq)]
pub struct Place {
    pub from: u32,
    pub to: u32,
    pub line: u32,
    pub col: u32,
}

impl Place {
    /// The earlier of two places; the first, if both begin at one byte.
    pub fn earlier(first: Option<Place>, second: Option<Place>) -> Option<Place>
        ensures { result ≡ earlier first second }
    {
        match (first, second) {
            (Some(p), Some(q)) => Some(if q.from < p.from { q } else { p }),
            (Some(p), None) => Some(p),
            (None, found) => found,
        }
    }
}
