// The reduction, and the truth of the root by it. The caller lends the copy: over many rows only the constants change.
ghost use Rattle.std.specs.Prelude.{◌≡◌, ◌+◌, ◌*◌, ◌≤◌, ◌<◌, length};
ghost use Rattle.records.specs.Record.{node, fields_at};
ghost use Rattle.checking.specs.Checked.{CheckedIn};
ghost use Rattle.symbol_screens.specs.Reading.{held_at};
ghost use Rattle.symbol_screens.specs.Rewriting.{lent};
ghost use Rattle.symbol_screens.specs.Rows.{row_keys_with, truth_with};
ghost use Rattle.symbol_rows.specs.RowTestWith.{row_fault_with};
ghost use Rattle.symbol_reduction.specs.Reduction.{is_text_input, takes_symbols, Reduced, Tested, Copied};

use crate::constant::put_constant;
use records::bytes::{byte, word_at};
use records::record::{Fields, Node, fields_in};
use row_test::evaluate::truth_at;
use symbol_truths::symbol_truth;
use three_valued::logic::Truth;

// Of an input only three fields are looked at.
fn is_text_input(table: &[u8], records: &[u8], n: Node) -> bool
    ensures { result ≡ is_text_input table.now (fields_at records.now n) }
{
    let at = 16 * (n.0 as usize);
    if byte(records, at) == 1 {
        return byte(table, word_at(records, at + 4) as usize) == 4;
    }
    byte(records, at + 2) == 4
}

fn takes_symbols(table: &[u8], records: &[u8], f: Fields) -> bool
    ensures { result ≡ takes_symbols table.now records.now f }
{
    if f.kind < 4 {
        return false;
    }
    if f.kind == 9 {
        return false;
    }
    is_text_input(table, records, Node(f.a))
}

/// The first `count` bytes of the records.
pub fn copy_front(records: &[u8], count: usize, out: &mut [u8])
    requires count_in_bounds { count ≤ length records.now }
    requires count_in_bounds_2 { count ≤ length out.old }
    ensures { Copied records.now out.new count }
{
    // std's `copy_from_slice` would need `memmove` of the host.
    for i in 0..count {
        out[i] = records[i];
    }
}

fn reduce_record(
    table: &[u8],
    records: &[u8],
    pool: &[u8],
    text: &[u8],
    used: u32,
    row: &[u8],
    nulls: u64,
    n: Node,
    out: &mut [u8],
)
    requires n_lt_used { n.0 < used }
    requires used_in_bounds { 16 * used ≤ length records.now }
    requires used_in_bounds_2 { 16 * used ≤ length out.old }
    requires tested { Tested text.now table.now records.now pool.now row.now nulls used }
    requires reduced { Reduced text.now table.now records.now pool.now row.now nulls used n.0 out.old }
    ensures { Reduced text.now table.now records.now pool.now
        row.now nulls used (n.0 + 1) out.new }
{
    let f = fields_in(records, n);
    if !takes_symbols(table, records, f) {
        return;
    }
    put_constant(out, n, symbol_truth(records, pool, text, row, nulls, f));
}

fn reduce(
    table: &[u8],
    records: &[u8],
    pool: &[u8],
    text: &[u8],
    used: u32,
    row: &[u8],
    nulls: u64,
    out: &mut [u8],
)
    requires used_in_bounds { 16 * used ≤ length records.now }
    requires used_in_bounds_2 { 16 * used ≤ length out.old }
    requires tested { Tested text.now table.now records.now pool.now row.now nulls used }
    requires reduced { Reduced text.now table.now records.now pool.now row.now nulls used 0 out.old }
    ensures { Reduced text.now table.now records.now pool.now
        row.now nulls used used out.new }
{
    for i in 0..used {
        reduce_record(table, records, pool, text, used, row, nulls, Node(i), out);
    }
}

/// What a row without a fault makes of the root of a checked screen. `out` holds the records, those with Text inputs or whatever
/// earlier rows made of them.
pub fn reduced_truth(
    table: &[u8],
    records: &[u8],
    pool: &[u8],
    text: &[u8],
    used: u32,
    root: Node,
    row: &[u8],
    nulls: u64,
    out: &mut [u8],
) -> Truth
    requires checked_in { CheckedIn (lent text.now) table.now records.now pool.now used root.0 }
    requires nulls_value { row_fault_with text.now table.now row.now nulls ≡ 0 }
    requires used_in_bounds { 16 * used ≤ length out.old }
    requires reduced { Reduced text.now table.now records.now pool.now row.now nulls used 0 out.old }
    ensures value { result ≡ truth_with text.now (held_at records.now pool.now used)
        (row_keys_with text.now table.now row.now nulls) root.0 }
    ensures reduced_2 { Reduced text.now table.now records.now pool.now
        row.now nulls used used out.new }
{
    reduce(table, records, pool, text, used, row, nulls, out);
    truth_at(out, pool, row, nulls, root)
}
