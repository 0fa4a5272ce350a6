// One row, with numbers in the place of its symbols.
ghost use Rattle.std.specs.Prelude.{◌≡◌, ◌*◌, ◌≤◌, ◌<◌, length};
ghost use Rattle.row_ranks.specs.RowRanks.{holds_symbol, RowRanks};

use ranked_screen::pool::put_value;
use records::bytes::value_in;
use text_order::number::number;
use truth::read::null_marked;

fn holds_symbol(table: &[u8], nulls: u64, c: usize) -> bool
    requires { (c < length table.now) × (length table.now ≤ 64) }
    ensures { result ≡ holds_symbol table.now nulls c }
{
    (table[c] == 4) & !null_marked(nulls, c as u32)
}

/// The row into `out`, by the words of the text's starts.
pub fn row_ranks(table: &[u8], codes: &[u64], row: &[u8], nulls: u64, out: &mut [u8])
    requires in_bounds { (8192 ≤ length codes.now) × (length table.now ≤ 64) }
    requires row_len { (length row.now ≡ 8 * length table.now) × (length out.old ≡ 8 * length table.now) }
    ensures { RowRanks table.now codes.now row.now nulls (length table.now)
        out.new }
{
    for c in 0..table.len() {
        let v = value_in(row, c);
        if holds_symbol(table, nulls, c) {
            put_value(out, c, number(codes, v));
        } else {
            put_value(out, c, v);
        }
    }
}
