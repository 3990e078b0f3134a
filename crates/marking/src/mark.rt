//! The mark of a row.
ghost use Rattle.std.specs.Prelude.{◌≡◌, if◌then◌else◌};

// The number of a mark is its byte.
#[derive(Clone, Copy, PartialEq, Eq, Debug)]
pub(crate) enum Mark {
    Unreachable = 0,
    Reachable = 1,
    Useful = 2,
}

impl Mark {
    // By whether some accepting run takes the row, and whether some run does.
    pub(crate) fn of(useful: bool, reachable: bool) -> Mark
        ensures { result ≡ (if useful then Mark.Useful else (if reachable then Mark.Reachable else Mark.Unreachable)) }
    {
        if useful {
            Mark::Useful
        } else if reachable {
            Mark::Reachable
        } else {
            Mark::Unreachable
        }
    }
}
