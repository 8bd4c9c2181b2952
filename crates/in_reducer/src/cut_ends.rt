// The free ends of a net in which wires are cut.
ghost use Rattle.std.specs.Prelude.{◌≡◌, ◌≤◌, ◌<◌, ◌+◌};
ghost use Rattle.in_reducer.specs.Inside.{most_free_ends};
ghost use Rattle.in_reducer.specs.Parting.{place_of_two};

/// The free ends of a net in which `count` wires are cut: the `own` ones before the cuts, and after them the first and the second end of each cut. A
/// part that is split off there has the first ends, and the rest has all others.
#[derive(Clone, Copy)]
pub(crate) struct Cuts {
    pub(crate) own: u32,
    pub(crate) count: u32,
    ghost few: { own + (count + count) ≤ most_free_ends },
}

impl Cuts {
    /// The number of the net's free ends.
    pub(crate) fn ends(self) -> u32
        ensures { result ≡ self.own + (self.count + self.count) }
    {
        self.own + 2 * self.count
    }

    /// The number of the rest's free ends.
    pub(crate) fn rest_ends(self) -> u32
        ensures { result ≡ self.own + self.count }
    {
        self.own + self.count
    }

    /// The number in the net of a free end of the rest.
    pub(crate) fn in_rest(self, number: u32) -> u32
        requires { number < self.own + self.count }
        ensures place { result ≡ place_of_two self.own 0 number }
        ensures low { result < self.own + (self.count + self.count) }
    {
        if number < self.own {
            number
        } else {
            self.own + 2 * (number - self.own) + 1
        }
    }

    /// The number in the net of a free end of the part.
    pub(crate) fn in_part(self, number: u32) -> u32
        requires { number < self.count }
        ensures place { result ≡ place_of_two self.own 1 number }
        ensures low { result < self.own + (self.count + self.count) }
    {
        self.own + 2 * number
    }
}
