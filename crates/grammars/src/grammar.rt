//! The view of a grammar: the sections of bytes that were found lawful.
ghost use Rattle.std.specs.Prelude.{◌≡◌, true, is_ok};
ghost use Rattle.grammars.specs.Grammars.{open_grammar};

use crate::sections::Sections;

// A view of the caller's bytes. It can only stand over the bytes of a lawful grammar: they read,
// and no terminal is a start symbol or a left side.
#[derive(Clone, Copy)]
pub struct Grammar<'a> {
    pub(crate) sections: Sections<'a>,
    ghost lawful: { is_ok (open_grammar sections.bytes.now) ≡ true },
}
