// The lists of other types than Text lie behind the numbers of the pool's symbols: they start as many places farther behind as the pool has values.
ghost use Rattle.std.specs.Prelude.{◌≡◌, ◌+◌, ◌*◌, ◌≤◌, ◌<◌, length};
ghost use Rattle.records.specs.Record.{node, fields_at};
ghost use Rattle.ranked_chain.specs.RankedChain.{is_number_list, ListsPooled, RaisedAt, RaisedLists};

use records::bytes::{byte, word_in};

fn is_number_list(out: &[u8], i: usize) -> bool
    requires { i < 4096 }
    ensures { result ≡ is_number_list (fields_at out.now (node i)) }
{
    let at = 16 * i;
    (byte(out, at) == 9) & (byte(out, at + 2) != 4)
}

// At most 8,192 and as many more: two bytes of four.
fn raise_list(out: &mut [u8], i: usize, words: u32)
    requires i_bound { (i < 4096) × (words ≤ 8192) × (16 * i + 16 ≤ length out.old) }
    requires i_bound_2 { (fields_at out.old (node i)).kind ≡ 9 → (fields_at out.old (node i)).a ≤ 8192 }
    ensures { RaisedAt words i out.old out.new }
{
    if !is_number_list(out, i) {
        return;
    }
    let at = 16 * i + 4;
    let start = words + word_in(out, at);
    out[at] = (start % 256) as u8;
    out[at + 1] = (start / 256) as u8;
}

/// Of the first `used` records.
pub fn raise_lists(out: &mut [u8], used: usize, words: u32)
    requires used_bound { (used ≤ 4096) × (words ≤ 8192) × (16 * used ≤ length out.old) }
    requires lists_pooled { ListsPooled out.old used }
    ensures { RaisedLists words used out.old out.new }
{
    for i in 0..used {
        raise_list(out, i, words);
    }
}
