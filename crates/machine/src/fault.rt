//! The one fault type of the library: the rule that was broken, and where.
ghost use Rattle.std.specs.Prelude.{◌≡◌, ◌++◌, Some, codes, decimal};
ghost use Rattle.machine.specs.Faults.{number, fault};

use std::fmt;

// What can be refused; docs/FAULTS.md says when, by whom, and what memory is left.
#[derive(Clone, Copy, PartialEq, Eq, Debug)]
pub enum Rule {
    // the bytes end before a count or an entry is whole
    Short = 1,
    // an entry is not above the one before it
    Order = 2,
    // an entry breaks its limits or its zeros
    Limits = 3,
    // bytes remain after the last entry
    Rest = 4,
    // a count is above its limit
    Count = 5,
    // a terminal is a start symbol or a left side
    Terminal = 6,
    // the scratch is too small
    Scratch = 7,
    // the mark bytes are fewer than the rows
    Marks = 8,
    // the row slots are fewer than the rows
    Slots = 9,
    // the output is shorter than the result
    Output = 10,
    // the entry stands already
    Standing = 11,
    // no slot is free, or the section is at its limit
    Full = 12,
    // no such entry stands
    Absent = 13,
}

impl Rule {
    pub fn number(self) -> u8
        ensures { result ≡ number self }
    {
        self as u8
    }

    // The fault that this rule is broken in a section, at a place.
    pub fn at(self, section: u8, place: usize) -> Fault
        ensures { result ≡ fault self section place }
    {
        Fault {
            rule: self,
            section,
            place,
        }
    }
}

// Sections count from 1 and places from 0; a fault that is about neither has 0 there.
#[derive(Clone, Copy, PartialEq, Eq, Debug)]
pub struct Fault {
    pub rule: Rule,
    pub section: u8,
    pub place: usize,
}

// The word `refused`, and the three numbers.
impl fmt::Display for Fault {
    ghost output = { λ f. Some (codes "refused " ++ decimal (number f.rule) ++ codes " " ++ decimal f.section ++ codes " " ++ decimal f.place) };

    fn fmt<W: fmt::Write>(&self, f: &mut fmt::Formatter<W>) -> fmt::Result {
        let number = self.rule.number();
        write!(f, "refused {number} {} {}", self.section, self.place)
    }
}
