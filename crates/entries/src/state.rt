//! States as entries: one byte, in the order of the numbers.
ghost use Rattle.std.specs.Prelude.{◌≡◌};
ghost use Rattle.entries.specs.Sorts.{Sort, Laws, entry_at};
ghost use Rattle.entries.specs.States.{states};
ghost use Rattle.entries.specs.StateBytes.{states_laws};

use crate::bytes::put_bytes;
use crate::entry::Entry;
use std::cmp::Ordering;

impl Entry for u8 {
    ghost sort = { states };

    ghost laws = { states_laws };

    fn width() -> usize {
        1
    }

    fn from_bytes(bytes: &[u8]) -> Option<u8> {
        bytes.first().copied()
    }

    fn is_lawful(&self) -> bool {
        // every byte is a state
        *self <= u8::MAX
    }

    fn compare(&self, other: &u8) -> Ordering {
        self.cmp(other)
    }

    fn write(&self, out: &mut [u8], at: usize) -> bool {
        put_bytes(out, at, &[*self])
    }
}
