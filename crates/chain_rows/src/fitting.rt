// Whether the rows have the marks and values that their columns allow (13). A row's values are looked at together: what is wrong
// with any of them is a bit of one word, so that most rows take no branch a column.
ghost use Rattle.std.specs.Prelude.{◌≡◌, ℕ, ◌+◌, ◌*◌, ◌%◌, ◌^◌, ◌<◌, ◌≤◌, true, List, length, if◌then◌else◌, ◌==◌, bit_and, nat_eq, slice_index};
ghost use Rattle.records.specs.Bytes.{all, value_at};
ghost use Rattle.truth.specs.FromBytes.{null_marked};
ghost use Rattle.chain_rows.specs.Classes.{row_fits};
ghost use Rattle.chain_rows.specs.Limits.{limit_bias, limit_mask, Limits, WideRow};

use limits::COLUMNS;
use records::bytes::value_in;
use row_test::row::marks_ok;
use truth::read::null_marked;

fn limit_bias(ty: u8) -> u64
    ensures { result ≡ limit_bias ty }
{
    if ty == 2 {
        return 2147483648;
    }
    0
}

fn limit_mask(ty: u8) -> u64
    ensures { result ≡ limit_mask ty }
{
    if ty == 1 {
        return 0;
    }
    if ty == 2 {
        return 18446744069414584320;
    }
    18446744073709551614
}

// The limits of every column's type.
fn fill_limits(table: &[u8], limits: &mut [u64])
    requires table_len_bound { length table.now ≤ 64 }
    requires in_bounds { 128 ≤ length limits.old }
    ensures { Limits table.now limits.new (length table.now) }
{
    for (c, ty) in table.iter().enumerate() {
        limits[c] = limit_bias(*ty);
        limits[64 + c] = limit_mask(*ty);
    }
}

// 0, or bits of the values of a row that are none of their columns' types.
fn outside(columns: usize, values: &[u8], row: usize, limits: &[u64]) -> u64
    requires columns_bound { columns ≤ 64 }
    requires row_bound { row < 1024 }
    requires columns_in_bounds { 8 * columns * row + 8 * columns ≤ length values.now }
    requires in_bounds { 128 ≤ length limits.now }
    ensures result_value { (result == 0) ≡ all (λ (c : ℕ). nat_eq (bit_and ((value_at values.now (columns * row + c)
        + slice_index limits.now c) % 2 ^ 64) (slice_index limits.now (64 + c))) 0) columns }
    ensures wide_row { WideRow columns values.now row columns }
{
    let mut m: u64 = 0;
    for c in 0..columns {
        let v = value_in(values, columns * row + c);
        let x = std::num::wrapping_add_u64(v, limits[c]) & limits[64 + c];
        m = m | x;
    }
    m
}

fn value_if(b: bool, v: u64) -> u64
    ensures { result ≡ (if b then v else 0) }
{
    if b {
        return v;
    }
    0
}

// 0, or bits of the values of a row that are marked null.
fn null_values(columns: usize, values: &[u8], row: usize, nulls: u64) -> u64
    requires columns_bound { columns ≤ 64 }
    requires row_bound { row < 1024 }
    requires columns_in_bounds { 8 * columns * row + 8 * columns ≤ length values.now }
    ensures { (result == 0) ≡ all (λ (c : ℕ). nat_eq (if null_marked nulls c then value_at values.now
        (columns * row + c) else 0) 0) columns }
{
    let mut m: u64 = 0;
    for c in 0..columns {
        let v = value_in(values, columns * row + c);
        m = m | value_if(null_marked(nulls, c as u32), v);
    }
    m
}

fn row_fits(columns: usize, values: &[u8], row: usize, nulls: u64, limits: &[u64]) -> bool
    requires columns_bound { columns ≤ 64 }
    requires row_bound { row < 1024 }
    requires columns_in_bounds { 8 * columns * row + 8 * columns ≤ length values.now }
    requires in_bounds { 128 ≤ length limits.now }
    ensures { (table chain : List ℕ) → length table ≡ columns → Limits table limits.now columns
        → nulls ≡ slice_index chain row → result ≡ row_fits table values.now chain row }
{
    if outside(columns, values, row, limits) != 0 {
        return false;
    }
    if nulls == 0 {
        return true;
    }
    if !marks_ok(columns, nulls) {
        return false;
    }
    null_values(columns, values, row, nulls) == 0
}

/// Every row, from 0 up.
pub fn rows_fit(table: &[u8], values: &[u8], nulls: &[u64]) -> bool
    requires table_len_bound { length table.now ≤ 64 }
    requires values_len { length values.now ≡ 8 * length table.now * length nulls.now }
    requires nulls_len_bound { length nulls.now ≤ 1024 }
    ensures { result ≡ all (row_fits table.now values.now nulls.now)
        (length nulls.now) }
{
    let mut limits = [0u64; 2 * COLUMNS];
    fill_limits(table, &mut limits);
    for (r, marks) in nulls.iter().enumerate() {
        if !row_fits(table.len(), values, r, *marks, &limits) {
            return false;
        }
    }
    true
}
