//! Opening a grammar: one pass over the bytes, then one over the start symbols and the rules, and no memory.
ghost use Rattle.std.specs.Prelude.{◌≡◌, ℕ, List, [], ◌∷◌, take, Ok, Err, MatchResult, OnOk};
ghost use Rattle.grammars.specs.Grammars.{open_grammar, grammar_of, LawfulGrammar, encode_grammar, GrammarLaws};

use crate::grammar::Grammar;
use crate::sections::{LONGEST, Sections};
use machine::fault::Fault;

static NO_ENTRIES: [u8; 6] = [0; 6];

impl<'a> Grammar<'a> {
    // The view that is there from the beginning: six zero bytes, a grammar of no entries.
    pub fn empty() -> Grammar<'a>
        ensures { result.sections.bytes.now ≡ 0 ∷ (0 ∷ (0 ∷ (0 ∷ (0 ∷ (0 ∷ []))))) }
    {
        Grammar {
            sections: Sections {
                bytes: &NO_ENTRIES,
                starts: &[],
                terminals: &[],
                productions: &[],
            },
        }
    }

    // Opens the bytes into this view, which then shows those very bytes. A refusal leaves the view as it was.
    pub fn open(&mut self, bytes: &'a [u8]) -> Result<(), Fault>
        ensures outcome { MatchResult result (λ _. (open_grammar bytes.now ≡ Ok (grammar_of bytes.now)) × (self.new.sections.bytes ≡ bytes.entry)) (λ f. (open_grammar bytes.now ≡ Err f) × (self.new ≡ self.old)) }
        ensures encoding { OnOk result (LawfulGrammar (grammar_of bytes.now) × (bytes.now ≡ encode_grammar (grammar_of bytes.now))) }
        ensures laws { GrammarLaws }
    {
        *self = Grammar::try_from(bytes)?;
        Ok(())
    }

    // The bytes that the view shows.
    pub fn bytes(&self) -> &'a [u8]
        ensures { result.now ≡ self.now.sections.bytes.now }
    {
        self.sections.bytes
    }
}

// The view of the bytes, or the first fault.
impl<'a> TryFrom<&'a [u8]> for Grammar<'a> {
    type Error = Fault;

    ghost try_from_gives = { λ bytes r. MatchResult r (λ g. (open_grammar bytes.now ≡ Ok (grammar_of bytes.now)) × (g.sections.bytes ≡ bytes)) (λ f. open_grammar bytes.now ≡ Err f) × (OnOk r (LawfulGrammar (grammar_of bytes.now) × (bytes.now ≡ encode_grammar (grammar_of bytes.now))) × GrammarLaws) };

    fn try_from(bytes: &'a [u8]) -> Result<Grammar<'a>, Fault> {
        let sections = Sections::read(bytes)?;
        sections.check_terminals()?;
        Ok(Grammar { sections })
    }
}

// How many bytes of an input decide, however long it is: a byte more than the longest grammar.
pub fn enough_bytes() -> usize
    ensures { (bs : List ℕ) → open_grammar (take result bs) ≡ open_grammar bs }
{
    LONGEST + 1
}
