//! The rows of a grammar in four parts: of the start symbols, of the rules, of the terminals, and the last row.
ghost use Rattle.std.specs.Prelude.{◌+◌, ◌<◌, MatchOption};
ghost use Rattle.grammars.specs.Parts.{FallsIn};

use entries::sizes::Sizes;

// A part, with a place in it.
#[derive(Clone, Copy)]
pub enum Part {
    Start(usize),
    Rule(usize),
    Terminal(usize),
    Last,
}

// The part in which a place falls; none past the last row.
pub fn part_of(sizes: Sizes, place: usize) -> Option<Part>
    ensures { MatchOption result (sizes.first + sizes.third + sizes.second < place) (λ part. FallsIn sizes place part) }
{
    if place < sizes.first {
        return Some(Part::Start(place));
    }
    let place = place - sizes.first;
    if place < sizes.third {
        return Some(Part::Rule(place));
    }
    let place = place - sizes.third;
    if place < sizes.second {
        return Some(Part::Terminal(place));
    }
    if place == sizes.second {
        Some(Part::Last)
    } else {
        None
    }
}
