//! Writing down the nodes of a machine's graph: the states are there already, and each row adds a node for each symbol that it pushes.
ghost use Rattle.std.specs.Prelude.{◌+◌, ◌<◌, ◌≤◌, length};
ghost use Rattle.machine.specs.Rows.{symbols_of};
ghost use Rattle.marking.specs.Drawing.{DrewWord, DrewRows, Roomy};

use machine::machine::Machine;
use machine::row::Word;

// The nodes of a word from `base` on, above the node `prev`; the answer is the node of the whole word.
fn draw_word(word: Word, base: usize, prev: usize, labels: &mut [u16], nexts: &mut [u16]) -> usize
    requires { (word.len ≤ 10) × ((base + word.len ≤ length labels.old) × ((base + word.len ≤ length nexts.old) × ((base + word.len ≤ 65536) × (prev < 65536)))) }
    ensures { DrewWord (symbols_of word) base prev labels.old nexts.old labels.new nexts.new word.len result }
{
    let mut last = prev;
    let symbols = &word.symbols[..usize::from(word.len)];
    for (k, symbol) in symbols.iter().enumerate() {
        let node = base + k;
        labels[node] = u16::from(*symbol);
        nexts[node] = last as u16;
        last = node;
    }
    last
}

// The nodes of all rows from `low` on, and the first node of each row; the answer is how many nodes there are then.
pub(crate) fn draw_rows<M: Machine>(
    m: &M,
    low: usize,
    labels: &mut [u16],
    nexts: &mut [u16],
    firsts: &mut [u16],
) -> usize
    requires { Roomy (M.Machine.lists m.now) low labels.old nexts.old firsts.old }
    ensures { DrewRows (M.Machine.lists m.now) low labels.new nexts.new firsts.new (length (M.Machine.lists m.now).rows) result }
{
    let mut base = low;
    let count = m.row_count();
    for (i, first) in firsts[..count].iter_mut().enumerate() {
        let row = m.row(i);
        *first = draw_word(row.pushed, base, usize::from(row.to), labels, nexts) as u16;
        base += usize::from(row.pushed.len);
    }
    base
}
