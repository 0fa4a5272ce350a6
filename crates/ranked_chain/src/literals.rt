// The records with numbers in their literals of type Text.
ghost use Rattle.std.specs.Prelude.{◌≡◌, cond, ◌+◌, ◌*◌, ◌≤◌, ◌<◌, length, get_or};
ghost use Rattle.records.specs.Record.{node, fields_at};
ghost use Rattle.ranked_screen.specs.Screen.{write_value};
ghost use Rattle.symbol_reduction.specs.Reduction.{Copied};
ghost use Rattle.ranked_chain.specs.RankedChain.{is_text_literal, RankedLiterals};

use ranked_screen::pool::put_value;
use records::bytes::byte;

fn is_text_literal(records: &[u8], i: usize) -> bool
    requires { i < 4096 }
    ensures { result ≡ is_text_literal (fields_at records.now (node i)) }
{
    let at = 16 * i;
    (byte(records, at) == 2) & (byte(records, at + 2) == 4)
}

fn rank_literal(records: &[u8], i: usize, rank: u64, out: &mut [u8])
    requires { (i < 4096) × (16 * i + 16 ≤ length out.old) }
    ensures { out.new ≡ cond (is_text_literal (fields_at records.now (node i)))
        (write_value out.old (2 * i + 1) rank) out.old }
{
    if !is_text_literal(records, i) {
        return;
    }
    put_value(out, 2 * i + 1, rank);
}

/// `out` holds the records, `ranks` the numbers of the places.
pub fn rank_literals(records: &[u8], ranks: &[u64], used: usize, out: &mut [u8])
    requires used_bound { (used ≤ 4096) × (used ≤ length ranks.now) × (16 * used ≤ length out.old) }
    requires copied { Copied records.now out.old (16 * used) }
    ensures { RankedLiterals records.now ranks.now used used out.new }
{
    for i in 0..used {
        rank_literal(records, i, ranks[i], out);
    }
}
