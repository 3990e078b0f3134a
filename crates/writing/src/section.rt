//! The sections of a table, each told by a type: the entries that it has, and where it stands in the table.
ghost use Rattle.writing.specs.declared.section.Kind.{Kind};
ghost use Rattle.writing.specs.Parts.{Part, PartLaws, NextLaws, starts_kind, accepts_kind, rows_kind, starts_part, accepts_part, rows_part};
ghost use Rattle.writing.specs.PartFacts.{starts_laws, accepts_laws, rows_laws, accepts_next, rows_next};

use entries::entry::Entry;
use machine::row::Row;

// What sets the sections apart: the number, how many entries there may be, and how many sections come later.
#[derive(Clone, Copy)]
pub struct Kind {
    pub section: u8,
    pub most: usize,
    pub later: usize,
}

// A section of a table.
pub trait Section {
    type Item: Entry;

    const KIND: Kind;

    ghost KIND: { Kind };

    // which of a table's lists it is, and what stands before it
    ghost part: { Part Self.Item };

    ghost laws: { PartLaws Self.Item.sort KIND part };
}

// A section behind which another one stands.
pub trait Followed: Section {
    type Next: Section;

    ghost next_laws: { NextLaws Self.Item.sort Self.KIND Self.part Self.Next.Item.sort Self.Next.KIND Self.Next.part };
}

pub struct Starts;

pub struct Accepts;

pub struct Rows;

impl Section for Starts {
    type Item = u8;

    const KIND: Kind = Kind {
        section: 1,
        most: 256,
        later: 2,
    };

    ghost KIND = { starts_kind };

    ghost part = { starts_part };

    ghost laws = { starts_laws };
}

impl Section for Accepts {
    type Item = u8;

    const KIND: Kind = Kind {
        section: 2,
        most: 256,
        later: 1,
    };

    ghost KIND = { accepts_kind };

    ghost part = { accepts_part };

    ghost laws = { accepts_laws };
}

impl Section for Rows {
    type Item = Row;

    const KIND: Kind = Kind {
        section: 3,
        most: 1024,
        later: 0,
    };

    ghost KIND = { rows_kind };

    ghost part = { rows_part };

    ghost laws = { rows_laws };
}

impl Followed for Starts {
    type Next = Accepts;

    ghost next_laws = { accepts_next };
}

impl Followed for Accepts {
    type Next = Rows;

    ghost next_laws = { rows_next };
}
