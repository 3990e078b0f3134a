//! The text of a fault.
ghost use Rattle.std.specs.Prelude.{◌≡◌, IfOk, string_bytes};
ghost use Rattle.reports.specs.Texts.{fault_text};

use machine::fault::Fault;
use std::alloc::{AllocError, Global};

// One line: the number of the rule that was broken, the section and the place.
pub fn fault_text(heap: Global, fault: Fault) -> Result<String, AllocError>
    ensures { IfOk result (λ t. string_bytes t ≡ fault_text fault) }
{
    format!(in heap; "{fault}\n")
}
