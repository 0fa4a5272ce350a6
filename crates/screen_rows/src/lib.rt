// Three calls of the C interface (include/screen.h) and nothing else: checking a screen, the columns it reads, testing a row.
// Each turns the answer of a layer below into its number and into the values of its out-parameters. No call asks anything of
// its arguments.
#![tactic(auto)]

ghost use Rattle.std.specs.Prelude.{◌≡◌, true};
ghost use Rattle.checking.specs.Check.{check_answer_in};
ghost use Rattle.symbol_screens.specs.Rewriting.{lent};
ghost use Rattle.symbol_rows.specs.ColumnsWith.{columns_answer_in};
ghost use Rattle.symbol_rows.specs.RowTestWith.{test_row_answer_with};
ghost use Rattle.screen_rows.specs.Answers.{check_number, columns_number, columns_out, count_out, row_number, truth_number};
ghost use Rattle.screen_rows.specs.Listed.{check_listed, columns_listed, row_listed};
ghost use Rattle.screen_rows.specs.Promises.{ColumnsPromise};

use check_lent::check_lent;
use symbol_reads::columns_read_with;
use symbol_row_test::test_row_with;
use three_valued::logic::Truth;

// Below 256: the refusal's number. 256: accepted.
#[unsafe(no_mangle)]
pub extern "C" fn screen_check(
    table: &[u8],
    records: &[u8],
    pool: &[u8],
    text: &[u8],
    used: u64,
    root: u64,
) -> u32
    ensures answer { result ≡ check_number (check_answer_in (lent text.now) table.now
        records.now pool.now used root) }
    ensures listed { check_listed result ≡ true }
{
    match check_lent(table, records, pool, text.len(), used, root) {
        Err(r) => r.number(),
        Ok(()) => 256,
    }
}

// Below 256: the refusal's number, and nothing is written. 256: `columns` has a bit for each column that the root reaches, and
// `count` the number of ones in it.
#[unsafe(no_mangle)]
pub extern "C" fn screen_columns_read(
    table: &[u8],
    records: &[u8],
    pool: &[u8],
    text: &[u8],
    used: u64,
    root: u64,
    columns: &mut u64,
    count: &mut u64,
) -> u32
    ensures answer { result ≡ columns_number (columns_answer_in (lent text.now) table.now
        records.now pool.now used root) }
    ensures listed { columns_listed result ≡ true }
    ensures word { columns.new ≡ columns_out (columns_answer_in (lent text.now)
        table.now records.now pool.now used root) columns.old }
    ensures ones { count.new ≡ count_out (columns_answer_in (lent text.now)
        table.now records.now pool.now used root) count.old }
    ensures promise { ColumnsPromise records.now root result columns.new count.new }
{
    match columns_read_with(table, records, pool, text, used, root) {
        Err(r) => r.number(),
        Ok(read) => {
            *columns = read.word;
            *count = read.count;
            256
        }
    }
}

fn truth_number(t: Truth) -> u32
    ensures { result ≡ truth_number t }
{
    match t {
        Truth::False => 256,
        Truth::Unknown => 257,
        Truth::True => 258,
    }
}

// Below 256: the refusal's number. 256: false, 257: unknown, 258: true; a row passes on true only. Nothing is written.
#[unsafe(no_mangle)]
pub extern "C" fn screen_test_row(
    table: &[u8],
    records: &[u8],
    pool: &[u8],
    text: &[u8],
    used: u64,
    root: u64,
    row: &[u8],
    nulls: u64,
) -> u32
    ensures answer { result ≡ row_number (test_row_answer_with text.now table.now records.now
        pool.now used root row.now nulls) }
    ensures listed { row_listed result ≡ true }
{
    match test_row_with(table, records, pool, text, used, root, row, nulls) {
        Err(r) => r.number(),
        Ok(t) => truth_number(t),
    }
}
