// The calls of crate `screen_rows` for C (include/screen.h), as a static library: each calls the library's function and states its
// clauses again. Hosts link them in one archive with the others (host/archive).
#![tactic(auto)]

ghost use Rattle.std.specs.Prelude.{◌≡◌, true};
ghost use Rattle.checking.specs.Check.{check_answer_in};
ghost use Rattle.symbol_screens.specs.Rewriting.{lent};
ghost use Rattle.symbol_rows.specs.ColumnsWith.{columns_answer_in};
ghost use Rattle.symbol_rows.specs.RowTestWith.{test_row_answer_with};
ghost use Rattle.screen_rows.specs.Answers.{check_number, columns_number, columns_out, count_out, row_number};
ghost use Rattle.screen_rows.specs.Listed.{check_listed, columns_listed, row_listed};
ghost use Rattle.screen_rows.specs.Promises.{ColumnsPromise};

// Below 256: the refusal's number. 256: accepted.
#[unsafe(no_mangle)]
pub extern "C" fn screen_check(
    table: &[u8],
    records: &[u8],
    pool: &[u8],
    text: &[u8],
    used: u64,
    root: u64,
) -> u32
    ensures answer { result ≡ check_number (check_answer_in (lent text.now) table.now
        records.now pool.now used root) }
    ensures listed { check_listed result ≡ true }
{
    screen_rows::screen_check(table, records, pool, text, used, root)
}

// Below 256: the refusal's number, and nothing is written. 256: `columns` has a bit for each column that the root reaches, and
// `count` the number of ones in it.
#[unsafe(no_mangle)]
pub extern "C" fn screen_columns_read(
    table: &[u8],
    records: &[u8],
    pool: &[u8],
    text: &[u8],
    used: u64,
    root: u64,
    columns: &mut u64,
    count: &mut u64,
) -> u32
    ensures answer { result ≡ columns_number (columns_answer_in (lent text.now) table.now
        records.now pool.now used root) }
    ensures listed { columns_listed result ≡ true }
    ensures word { columns.new ≡ columns_out (columns_answer_in (lent text.now)
        table.now records.now pool.now used root) columns.old }
    ensures ones { count.new ≡ count_out (columns_answer_in (lent text.now)
        table.now records.now pool.now used root) count.old }
    ensures promise { ColumnsPromise records.now root result columns.new count.new }
{
    screen_rows::screen_columns_read(table, records, pool, text, used, root, columns, count)
}

// Below 256: the refusal's number. 256: false, 257: unknown, 258: true; a row passes on true only. Nothing is written.
#[unsafe(no_mangle)]
pub extern "C" fn screen_test_row(
    table: &[u8],
    records: &[u8],
    pool: &[u8],
    text: &[u8],
    used: u64,
    root: u64,
    row: &[u8],
    nulls: u64,
) -> u32
    ensures answer { result ≡ row_number (test_row_answer_with text.now table.now records.now
        pool.now used root row.now nulls) }
    ensures listed { row_listed result ≡ true }
{
    screen_rows::screen_test_row(table, records, pool, text, used, root, row, nulls)
}
