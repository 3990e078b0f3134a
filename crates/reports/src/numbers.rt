//! The text of a list of numbers.
ghost use Rattle.std.specs.Prelude.{Some};
ghost use Rattle.reports.specs.Texts.{numbers_text};

use std::fmt;

// Each number after a space, or a dash where there is none.
#[derive(Clone, Copy)]
pub(crate) struct Numbers<'a>(pub(crate) &'a [u8]);

impl fmt::Display for Numbers<'_> {
    ghost output = { λ ns. Some (numbers_text ns.0.now) };

    fn fmt<W: fmt::Write>(&self, f: &mut fmt::Formatter<W>) -> fmt::Result {
        if self.0.is_empty() {
            return write!(f, " -");
        }
        for number in self.0 {
            write!(f, " {number}")?;
        }
        Ok(())
    }
}
