//! The kinds of files that the programs read.
ghost use Rattle.std.specs.Prelude.{◌≡◌, ℕ, List, take, Some, codes};
ghost use Rattle.reports.specs.Openings.{open_file, Names};

use std::error::Error;
use std::fmt;
use std::str::FromStr;

// What the bytes of a file are read as.
#[derive(Clone, Copy, PartialEq, Eq, Debug)]
pub enum Kind {
    Table,
    Grammar,
}

// The text names no kind.
#[derive(Clone, Copy, PartialEq, Eq, Debug)]
pub struct UnknownKind;

impl FromStr for Kind {
    type Err = UnknownKind;

    ghost from_str_gives = { Names };

    fn from_str(name: &str) -> Result<Kind, UnknownKind> {
        match name {
            "table" => Ok(Kind::Table),
            "grammar" => Ok(Kind::Grammar),
            _ => Err(UnknownKind),
        }
    }
}

impl fmt::Display for UnknownKind {
    ghost output = { λ _. Some (codes "the argument is `table` or `grammar`") };

    fn fmt<W: fmt::Write>(&self, f: &mut fmt::Formatter<W>) -> fmt::Result {
        f.write_str("the argument is `table` or `grammar`")
    }
}

impl Error for UnknownKind {}

impl Kind {
    // How many bytes of an input decide, however long it is.
    pub fn enough_bytes(self) -> usize
        ensures { (bs : List ℕ) → open_file self (take result bs) ≡ open_file self bs }
    {
        match self {
            Kind::Table => tables::open::enough_bytes(),
            Kind::Grammar => grammars::open::enough_bytes(),
        }
    }
}
