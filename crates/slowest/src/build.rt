// The table and the records are written from the front; nothing behind them is touched.
ghost use Rattle.std.specs.Prelude.{◌≡◌, ◌*◌, ◌≤◌, ◌<◌, length};
ghost use Rattle.merge.specs.Write.{splice};
ghost use Rattle.slowest.specs.SlowestAnswer.{slowest_answered};
ghost use Rattle.slowest.specs.Answers.{known_count, has_room, slowest_answer, table_written, records_written};
ghost use Rattle.slowest.specs.Screen.{slowest_record, slowest_table, slowest_bytes};

use records::operator::Operator;
use records::record::{Column, Node, Record};
use refusal::Refusal;
use rewrite::write::put_record;

/// The screen built: its root and its used count.
#[derive(Clone, Copy)]
pub struct BuiltScreen {
    pub root: u64,
    pub used: u64,
}

fn known_count(columns: u64) -> bool
    ensures { result ≡ known_count columns }
{
    (2 <= columns) & (columns <= 64)
}

fn has_room(table: usize, records: usize, columns: u64) -> bool
    ensures { result ≡ has_room table records columns }
{
    (columns <= table as u64) & (columns <= (records / 48) as u64)
}

fn slowest_record(n: u32, i: u32) -> Record
    requires { n ≤ 64 }
    ensures { result ≡ slowest_record n i }
{
    if i < n {
        return Record::Column(Column(i));
    }
    if i == n {
        return Record::Literal(1, 0);
    }
    if i == n + 1 {
        return Record::Binary(Operator::Gt, Node(0), Node(n));
    }
    let half = (i - n) / 2;
    if (i - n) % 2 == 0 {
        return Record::Binary(Operator::Eq, Node(half - 1), Node(half));
    }
    Record::Binary(Operator::And, Node(i - 1), Node(i - 2))
}

fn write_table(table: &mut [u8], n: usize)
    requires { n ≤ length table.old }
    ensures { table.new ≡ splice table.old 0 (slowest_table n) }
{
    for i in 0..n {
        table[i] = 1;
    }
}

fn write_records(records: &mut [u8], n: u32)
    requires { (n ≤ 64) × (48 * n ≤ length records.old) }
    ensures { records.new ≡ splice records.old 0 (slowest_bytes n) }
{
    for i in 0..3 * n {
        put_record(records, Node(i), slowest_record(n, i));
    }
}

/// The screen of so many columns, in the front of `table` and `records`.
pub fn build_slowest(
    columns: u64,
    table: &mut [u8],
    records: &mut [u8],
) -> Result<BuiltScreen, Refusal>
    ensures answer { slowest_answered result ≡ slowest_answer columns (length table.old) (length records.old) }
    ensures table { table.new ≡ table_written (slowest_answered result) columns table.old }
    ensures records { records.new ≡ records_written (slowest_answered result) columns records.old }
{
    if !known_count(columns) {
        return Err(Refusal::Columns);
    }
    if !has_room(table.len(), records.len(), columns) {
        return Err(Refusal::Room);
    }
    write_table(table, columns as usize);
    write_records(records, columns as u32);
    Ok(BuiltScreen {
        root: 3 * columns - 1,
        used: 3 * columns,
    })
}
