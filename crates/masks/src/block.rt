// A block of rows: one column of it as keys and a word of null marks.
ghost use Rattle.std.specs.Prelude.{◌≡◌, ℕ, ◌+◌, ◌*◌, ◌≤◌, ◌<◌, length, get_or};
ghost use Rattle.masks.specs.Masks.{Shown};
ghost use Rattle.masks.specs.Block.{chain_value};

use crate::with_bit;
use records::bytes::value_in;
use truth::read::null_marked;
use truth::scalar::biased;

/// Column c of the rows from `base` on: its keys into `keys`, from `at` on, and the word of its nulls. What stands before `at`
/// stays.
pub fn fill_column(
    values: &[u8],
    nulls: &[u64],
    columns: usize,
    c: u32,
    base: usize,
    rows: usize,
    keys: &mut [u64],
    at: usize,
) -> u64
    requires rows_bound { rows ≤ 64 }
    requires columns_bound { columns ≤ 64 }
    requires c_lt_columns { c < columns }
    requires rows_in_bounds { base + rows ≤ length nulls.now }
    requires nulls_len_bound { length nulls.now ≤ 1024 }
    requires values_len { length values.now ≡ 8 * columns * length nulls.now }
    requires at_in_bounds { at + 64 ≤ length keys.old }
    ensures shown { Shown rows keys.new at result
        (λ (i : ℕ). chain_value columns values.now nulls.now c (base + i)) }
    ensures by_index { (j : ℕ) → j < at → get_or keys.new j 0 ≡ get_or keys.old j 0 }
{
    let mut marks: u64 = 0;
    for i in 0..rows {
        let r = base + i;
        let v = value_in(values, columns * r + c as usize);
        keys[at + i] = biased(v);
        marks = with_bit(marks, i as u32, null_marked(nulls[r], c));
    }
    marks
}
