//! The class of each row of a chain, of a screen with symbols (02, 2.10 and 2.14). The screen was checked once. Rows
//! under a short screen are tested one by one (each) where lists ask for few values, others by the numbers of their symbols (ranked).
#![tactic(auto)]

ghost use Rattle.std.specs.Prelude.{◌≡◌, true, false, [], ℕ, ◌+◌, ◌*◌, ◌≤◌, ◌<◌, length};
ghost use Rattle.records.specs.Bytes.{all};
ghost use Rattle.checking.specs.Checked.{CheckedIn};
ghost use Rattle.checking.specs.Tree.{tree_count};
ghost use Rattle.chain_rows.specs.Chain.{is_tested};
ghost use Rattle.chain_rows.specs.Classes.{Judged};
ghost use Rattle.symbol_screens.specs.Rewriting.{lent};
ghost use Rattle.symbol_reduction.specs.Reduction.{Reduced};
ghost use Rattle.symbol_chain.specs.ChainWith.{answer_at_with};

use crate::each::judge_each;
use crate::ranked::judge_ranked;
use chain_rows::judge::asked_values;
use records::record::Node;

pub mod each;
pub mod ranked;

// Whether the lists ask for so few values that the rows may be tested one by one, which looks through them from the first on.
fn asks_little(rows: usize, asked: u64) -> bool
    requires { rows ≤ 1024 }
{
    asked <= 524288 / (rows as u64 + 1)
}

// Whether to test the rows takes less time than to number the symbols of a text of so many bytes, and of all columns.
fn is_cheap(rows: usize, columns: usize, used: usize, size: usize, asked: u64) -> bool
    requires { (rows ≤ 1024) × (size ≤ 8192) }
    ensures { result ≡ false → 0 < rows }
{
    if rows == 0 {
        return true;
    }
    if used <= columns {
        return asks_little(rows, asked);
    }
    if 16 * size / (rows + 1) < used - columns {
        return false;
    }
    asks_little(rows, asked)
}

// How many values all records ask their lists for. Its marks do not lie below the calls that judge the rows.
#[inline(never)]
fn asked(records: &[u8], used: u32) -> u64
    requires { (0 < used) × (used ≤ 4096) × (16 * used ≤ length records.now) }
{
    let marks = [1u8; 4096];
    asked_values(records, Node(used - 1), &marks, 0)
}

/// Every row's class, 0 false, 1 unknown, 2 passes; false if a row is refused (13). `out` holds the records.
pub fn judge_symbols(
    table: &[u8],
    records: &[u8],
    pool: &[u8],
    text: &[u8],
    used: u32,
    root: Node,
    values: &[u8],
    nulls: &[u64],
    classes: &mut [u8],
    out: &mut [u8],
) -> bool
    requires checked_in { CheckedIn (lent text.now) table.now records.now pool.now used root.0 }
    requires root_bound { tree_count records.now root.0 ≤ 4096 }
    requires used_in_bounds { 16 * used ≤ length out.old }
    requires reduced { Reduced text.now table.now records.now pool.now [] 0 used 0 out.old }
    requires values_len { length values.now ≡ 8 * length table.now * length nulls.now }
    requires nulls_len_bound { length nulls.now ≤ 1024 }
    requires nulls_in_bounds { length nulls.now ≤ length classes.old }
    ensures value { result ≡ all (λ i. is_tested (answer_at_with text.now table.now records.now
        pool.now used root.0 values.now nulls.now i)) (length nulls.now) }
    ensures judged { result ≡ true → Judged (answer_at_with text.now table.now records.now
        pool.now used root.0 values.now nulls.now) classes.new
        (length nulls.now) }
{
    if is_cheap(
        nulls.len(),
        table.len(),
        used as usize,
        text.len(),
        asked(records, used),
    ) {
        return judge_each(
            table, records, pool, text, used, root, values, nulls, classes, out,
        );
    }
    judge_ranked(
        table, records, pool, text, used, root, values, nulls, classes, out,
    )
}
