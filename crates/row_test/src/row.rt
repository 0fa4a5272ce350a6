// The checks of a row, numbers 12 and 13. Every column is looked at, whether the screen reads it or not.
ghost use Rattle.std.specs.Prelude.{◌≡◌, ◌*◌, ◌≤◌, ◌^◌, ltb, length};
ghost use Rattle.refusal.specs.Numbers.{fault};
ghost use Rattle.row_test.specs.RowTest.{column_ok, columns_ok, marks_ok, row_fault};

use records::bytes::value_in;
use refusal::Refusal;
use truth::read::null_marked;
use value_types::in_type;

fn column_ok(ty: u8, null: bool, v: u64) -> bool
    ensures { result ≡ column_ok ty null v }
{
    if null {
        return v == 0;
    }
    in_type(0, ty, v)
}

fn columns_ok(table: &[u8], row: &[u8], nulls: u64) -> bool
    requires table_len_bound { length table.now ≤ 64 }
    requires row_len { length row.now ≡ 8 * length table.now }
    ensures { result ≡ columns_ok table.now row.now nulls }
{
    (0..table.len()).all(|c| {
        let null = null_marked(nulls, c as u32);
        column_ok(table[c], null, value_in(row, c))
    })
}

/// Whether no column from `count` on is marked null: with 64 columns no mark is too high.
pub fn marks_ok(count: usize, nulls: u64) -> bool
    requires { count ≤ 64 }
    ensures { result ≡ marks_ok count nulls }
{
    if count == 64 {
        return true;
    }
    nulls >> (count as u32) == 0
}

// 12 and 13.
pub fn row_fault(table: &[u8], row: &[u8], nulls: u64) -> Result<(), Refusal>
    requires { length table.now ≤ 64 }
    ensures { fault result ≡ row_fault table.now row.now nulls }
{
    if row.len() != 8 * table.len() {
        return Err(Refusal::RowLength);
    }
    if !marks_ok(table.len(), nulls) {
        return Err(Refusal::Row);
    }
    if !columns_ok(table, row, nulls) {
        return Err(Refusal::Row);
    }
    Ok(())
}
