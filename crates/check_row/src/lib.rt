// The check of a proposed row (02, 2.7): the checks in their order, 8, 9, 17 and 18 among them, then each line of the plain
// screen on the row. A row passes if every line is true of it; a line that is unknown is not. All of a screen without symbols: the
// C call stands in crate `check_symbols`.
#![tactic(auto)]

ghost use Rattle.std.specs.Prelude.{◌≡◌, true, ℕ, ◌<◌, ◌≤◌, length, get_or};
ghost use Rattle.truth.specs.FromBytes.{aexpr_of};
ghost use Rattle.merge.specs.Classify.{classify};
ghost use Rattle.reading.specs.Columns.{ColumnsBelow};
ghost use Rattle.places.specs.Places.{places_row};
ghost use Rattle.check_row.specs.Line.{lines_true};
ghost use Rattle.check_row.specs.Answer.{row_answer, check_row_answer, row_listed};

pub mod lines;
pub mod says;

use crate::lines::lines_pass;
use limits::CONJUNCTS;
use places::checks::places_ok;
use plain_lines::plain_lines;

// 18, then the first n of `nodes`, which are the lines of a plain screen.
fn judge_row(
    columns: usize,
    rs: &[u8],
    p: &[u8],
    nodes: &[u32],
    n: usize,
    row: &[u8],
    nulls: u64,
) -> u32
    requires columns_bound { (columns ≤ 64) × (n ≤ length nodes.now) }
    requires by_index { (i : ℕ) → i < n → ColumnsBelow 64 (classify (aexpr_of rs.now p.now) (get_or nodes.now i 0)) }
    ensures { result ≡ row_answer columns row.now nulls (lines_true (aexpr_of rs.now p.now)
        (places_row row.now nulls) nodes.now n) }
{
    if !places_ok(columns, row, nulls) {
        return 18;
    }
    if lines_pass(rs, p, nodes, n, row, nulls) {
        return 257;
    }
    256
}

// Below 256: the refusal's number. 256: the row does not pass. 257: it passes. Nothing is written.
pub fn check_of_screen(
    table: &[u8],
    records: &[u8],
    pool: &[u8],
    used: u64,
    root: u64,
    row: &[u8],
    nulls: u64,
) -> u32
    ensures answer { result ≡ check_row_answer table.now records.now pool.now used root
        row.now nulls }
    ensures listed { row_listed result ≡ true }
{
    let mut nodes = [0u32; CONJUNCTS];
    let lines = plain_lines(table, records, pool, used, root, &mut nodes);
    match lines {
        Err(r) => r.number(),
        Ok(n) => judge_row(table.len(), records, pool, &nodes, n as usize, row, nulls),
    }
}
