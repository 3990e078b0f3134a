//! A section of a table as it is written, made once for every section. Each call takes at most as many
//! steps as an entry has bytes, and no memory.
ghost use Rattle.std.specs.Prelude.{◌≡◌, ℕ, ◌≤◌, true, List, [], ◌∷◌, ◌++◌, length, is_ok, MatchResult};
ghost use Rattle.machine.specs.Lists.{Lists};
ghost use Rattle.entries.specs.Sections.{Lawful};
ghost use Rattle.tables.specs.Tables.{encode_table};
ghost use Rattle.writing.specs.Parts.{with_more};
ghost use Rattle.writing.specs.Stages.{fresh, end_of, needed, put_fault, Put, count_fits, closed};
ghost use Rattle.writing.specs.Histories.{WritingTable, after_put};
ghost use Rattle.writing.specs.Wholes.{AllPut};

use crate::section::{Followed, Kind, Section};
use entries::bytes::put_bytes;
use entries::entry::Entry;
use entries::section::follows;
use machine::fault::{Fault, Rule};
use std::marker::Model;

// How far a section is written: where it begins, how many entries it has, and the last of them.
// Two bytes for the count stand at its begin, and the entries behind them. It holds no reference: the output goes beside it.
#[derive(Drop)]
pub struct Stage<S: Section> {
    begin: usize,
    count: usize,
    last: Option<S::Item>,
}

impl<S: Section> Model for Stage<S> {
    ghost use Rattle.std.specs.Prelude.{◌≤◌};
    ghost use Rattle.writing.specs.Stages.{Progress};

    ghost Value = { Progress S.Item };

    ghost view = { λ s. record { begin = s.begin; count = s.count; last = s.last } };

    ghost invariant = { λ s. (s.begin ≤ S.part.latest) × (s.count ≤ S.KIND.most) };
}

impl<S: Section> Stage<S> {
    // A section that has no entries yet.
    pub(crate) fn fresh(begin: usize) -> Stage<S>
        requires { begin ≤ S.part.latest }
        ensures { result ≡ fresh begin }
    {
        Stage {
            begin,
            count: 0,
            last: None,
        }
    }

    // The place behind the entries. The longest table has so many bytes.
    pub(crate) fn end(&self) -> usize
        ensures end { result ≡ end_of S.Item.sort self.now }
        ensures within { result ≤ 26118 }
    {
        self.begin + 2 + S::Item::width() * self.count
    }

    // How long the output has to be for one more entry and the counts of the later sections.
    fn needed(&self) -> usize
        ensures { result ≡ needed S.Item.sort S.KIND self.now }
    {
        self.end() + S::Item::width() + 2 * S::KIND.later
    }

    // Whether the entry may be put into an output of so many bytes.
    fn check(&self, room: usize, entry: &S::Item) -> Result<(), Fault>
        ensures { MatchResult result (λ _. put_fault S.Item.sort S.KIND self.now room entry.now ≡ None) (λ f. put_fault S.Item.sort S.KIND self.now room entry.now ≡ Some f) }
    {
        let Kind { section, most, .. } = S::KIND;
        if !entry.is_lawful() {
            return Err(Rule::Limits.at(section, self.count));
        }
        if !follows(&self.last, entry) {
            return Err(Rule::Order.at(section, self.count));
        }
        if self.count >= most {
            return Err(Rule::Count.at(section, self.count));
        }
        if room < self.needed() {
            return Err(Rule::Output.at(section, self.count));
        }
        Ok(())
    }

    // Puts the entry behind the others, or refuses it and changes nothing.
    pub fn put(&mut self, out: &mut [u8], entry: S::Item) -> Result<(), Fault>
        ensures outcome { Put S.Item.sort S.KIND self.old out.old entry result self.new out.new }
        ensures history { (old : List ℕ) (m : Lists) → WritingTable S.Item.sort S.KIND S.part old m self.old out.old → WritingTable S.Item.sort S.KIND S.part old (after_put S.part m entry result) self.new out.new }
        ensures welcome { (old : List ℕ) (m : Lists) → WritingTable S.Item.sort S.KIND S.part old m self.old out.old → Lawful S.Item.sort S.KIND.most (S.part.entries m ++ entry ∷ []) → length (encode_table (with_more S.part m entry)) ≤ length old → is_ok result ≡ true }
    {
        self.check(out.len(), &entry)?;
        entry.write(out, self.end());
        self.count += 1;
        self.last = Some(entry);
        Ok(())
    }

    // Puts the entries in their order, up to the first that is refused.
    pub(crate) fn put_all(&mut self, out: &mut [u8], entries: &[S::Item]) -> Result<(), Fault>
        ensures outcome { (old : List ℕ) (m : Lists) → WritingTable S.Item.sort S.KIND S.part old m self.old out.old → S.part.entries m ≡ [] → AllPut S.Item.sort S.KIND S.part old m entries.now result self.new out.new }
        ensures welcome { (old : List ℕ) (m : Lists) → WritingTable S.Item.sort S.KIND S.part old m self.old out.old → S.part.entries m ≡ [] → Lawful S.Item.sort S.KIND.most entries.now → length (encode_table (S.part.with_entries m entries.now)) ≤ length old → is_ok result ≡ true }
    {
        for entry in entries {
            self.put(out, *entry)?;
        }
        Ok(())
    }

    // Writes the count, where it and those of the later sections fit; answers whether they do.
    pub(crate) fn close(&self, out: &mut [u8]) -> bool
        ensures fits { result ≡ count_fits S.KIND self.now (length out.old) }
        ensures after { out.new ≡ closed S.KIND self.now out.old }
    {
        if out.len() < self.begin + 2 + 2 * S::KIND.later {
            return false;
        }
        put_bytes(out, self.begin, &(self.count as u16).to_be_bytes())
    }
}

impl<S: Followed> Stage<S> {
    // Writes the count where it fits, and goes on to the next section.
    pub fn next(self, out: &mut [u8]) -> Stage<S::Next>
        ensures written { out.new ≡ closed S.KIND self out.old }
        ensures stage { result ≡ fresh (end_of S.Item.sort self) }
        ensures history { (old : List ℕ) (m : Lists) → WritingTable S.Item.sort S.KIND S.part old m self out.old → WritingTable S.Next.Item.sort S.Next.KIND S.Next.part old m result out.new }
    {
        self.close(out);
        Stage::fresh(self.end())
    }
}
