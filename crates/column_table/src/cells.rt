// A column of the table: 64 rows of seven words in one slice.
ghost use Rattle.std.specs.Prelude.{◌≡◌, ◌<◌, length, get_or, set};
ghost use Rattle.column_table.specs.Words.{columns_of, past_column};

use crate::words::{WORDS, read_words, write_words};
use column_constraints::column::ColumnConstraints;

pub fn load(cells: &[u64], x: usize) -> ColumnConstraints
    requires { (x < 64) × (length cells.now ≡ 448) }
    ensures { result ≡ get_or (columns_of cells.now) x past_column }
{
    let at = x * WORDS;
    let end = at + WORDS;
    read_words(&cells[at..end])
}

pub fn store(cells: &mut [u64], x: usize, c: ColumnConstraints)
    requires { (x < 64) × (length cells.old ≡ 448) }
    ensures cells_after { columns_of cells.new ≡ set (columns_of cells.old) x c }
    ensures cells_len_unchanged { length cells.new ≡ length cells.old }
{
    let at = x * WORDS;
    let end = at + WORDS;
    write_words(&mut cells[at..end], c);
}
