// Columns read. As the tree count, through a table with one word a record: records are shared.
ghost use Rattle.std.specs.Prelude.{◌≡◌, ℕ, ◌≤◌, ◌<◌, length, get_or};
ghost use Rattle.records.specs.Record.{list_of, record_at};
ghost use Rattle.checking.specs.Columns.{column_bit, own_column, or_at, columns_step, columns_word};
ghost use Rattle.checking.specs.Table.{below};

use limits::{FEW_RECORDS, RECORDS};
use records::record::{Column, Inputs, Node, Record, inputs_of, record_at};

// What columns read answers: the word, and the number of ones in it.
#[derive(Clone, Copy)]
pub struct ColumnsRead {
    pub word: u64,
    pub count: u64,
}

fn column_bit(c: Column) -> u64
    ensures { result ≡ column_bit c.0 }
{
    let at = c.0;
    if at < 64 { 1 << at } else { 0 }
}

fn own_column(r: Record) -> u64
    ensures { result ≡ own_column r }
{
    match r {
        Record::Column(c) => column_bit(c),
        _ => 0,
    }
}

// The word of an input; one that is not below its record reaches nothing.
fn word_of(words: &[u64], n: Node, x: Node) -> u64
    requires { n.0 < length words.now }
    ensures { result ≡ below words.now n.0 x.0 }
{
    if x.0 < n.0 {
        let at = x.0 as usize;
        return words[at];
    }
    0
}

fn word_of_inputs(words: &[u64], n: Node, inputs: Inputs) -> u64
    requires { n.0 < length words.now }
    ensures { result ≡ or_at (below words.now n.0) (list_of inputs) }
{
    match inputs {
        Inputs::Zero => 0,
        Inputs::One(x) => word_of(words, n, x) | 0,
        Inputs::Two(x, y) => word_of(words, n, x) | (word_of(words, n, y) | 0),
        Inputs::Three(x, y, z) => word_of(words, n, x)
            | (word_of(words, n, y) | (word_of(words, n, z) | 0)),
    }
}

fn columns_step(words: &[u64], rs: &[u8], n: Node) -> u64
    requires { n.0 < length words.now }
    ensures { result ≡ columns_step (below words.now n.0) (record_at rs.now n) }
{
    let r = record_at(rs, n);
    own_column(r) | word_of_inputs(words, n, inputs_of(r))
}

// The words of the records up to the root.
fn fill_words(words: &mut [u64], rs: &[u8], root: Node)
    requires root_in_bounds { root.0 < length words.old }
    requires root_bound { root.0 < 4096 }
    ensures { (a : ℕ) → a ≤ root.0 → get_or words.new a 0 ≡ columns_word rs.now a }
{
    for i in 0..root.0 + 1 {
        let w = columns_step(words, rs, Node(i));
        words[i as usize] = w;
    }
}

// A bit for each column that the root reaches. Most screens have few records, and a small table costs less to clear.
pub fn columns_word(rs: &[u8], root: Node) -> u64
    requires { root.0 < 4096 }
    ensures { result ≡ columns_word rs.now root.0 }
{
    if root.0 < 64 {
        let mut small = [0u64; FEW_RECORDS];
        fill_words(&mut small, rs, root);
        return small[root.0 as usize];
    }
    let mut words = [0u64; RECORDS];
    fill_words(&mut words, rs, root);
    words[root.0 as usize]
}
