// What stands at each place: the bits of a literal at its record's number, the values of the pool behind the records used.
ghost use Rattle.std.specs.Prelude.{◌≡◌, cond, ◌+◌, ◌/◌, ◌≤◌, ◌<◌, length};
ghost use Rattle.records.specs.Shape.{in_pool};
ghost use Rattle.symbol_screens.specs.Placed.{literal_bits, word_at, place_count, Standing};

use records::bytes::value_at;
use records::record::{Node, Record, record_at};
use value_types::in_pool;

fn literal_bits(r: Record) -> u64
    ensures { result ≡ literal_bits r }
{
    match r {
        Record::Literal(_, v) => v,
        _ => 0,
    }
}

fn place_word(rs: &[u8], p: &[u8], used: usize, i: usize) -> u64
    requires { (used ≤ 4096) × (i < 65536) }
    ensures { result ≡ word_at rs.now p.now used i }
{
    if i < used {
        return literal_bits(record_at(rs, Node(i as u32)));
    }
    value_at(p, i - used)
}

// The bits of a symbol of the pool, or the empty symbol.
fn symbol_or_empty(size: u32, v: u64) -> u64
    ensures { result ≡ cond (in_pool size v) v 0 }
{
    if in_pool(size, v) { v } else { 0 }
}

/// The values at all places, of a text pool of `size` bytes.
pub fn fill_values(size: u32, rs: &[u8], p: &[u8], used: usize, values: &mut [u64])
    requires { (used ≤ 4096) × (length p.now ≤ 65536) × (place_count p.now used ≤ length values.old) }
    ensures { Standing size rs.now p.now used values.new }
{
    let n = used + p.len() / 8;
    for i in 0..n {
        values[i] = symbol_or_empty(size, place_word(rs, p, used, i));
    }
}
