//! What one row makes of a record with Text inputs (02, 2.10). Its inputs are leaves, so nothing else is evaluated.
#![tactic(auto)]

ghost use Rattle.std.specs.Prelude.{◌≡◌, ◌+◌, ◌*◌, ◌<◌, length};
ghost use Rattle.records.specs.Record.{fields_at};
ghost use Rattle.truth.specs.Evaluate.{ColumnThere};
ghost use Rattle.symbol_values.specs.SymbolValues.{bits_in};
ghost use Rattle.symbol_truths.specs.SymbolTruths.{input_bits, symbol_truth, SymbolTest};

use records::record::{Fields, Node, fields_in};
use symbol_values::{as_one, beside_value, symbol_leaf, symbol_member};
use three_valued::logic::Truth;
use truth::value::{Value, between, compared, is_null};

fn input_value(records: &[u8], row: &[u8], nulls: u64, x: Node) -> Value
    requires x_in_bounds { 16 * x.0 + 15 < length records.now }
    requires column_there { (fields_at records.now x).kind ≡ 1 → ColumnThere row.now (fields_at records.now x).a }
    ensures { bits_in result ≡ input_bits records.now row.now nulls x.0 }
{
    symbol_leaf(fields_in(records, x), row, nulls)
}

/// The truth of the record with the fields f under the row.
pub fn symbol_truth(
    records: &[u8],
    pool: &[u8],
    text: &[u8],
    row: &[u8],
    nulls: u64,
    f: Fields,
) -> Truth
    requires { SymbolTest text.now records.now pool.now row.now nulls f }
    ensures { result ≡ symbol_truth text.now records.now pool.now row.now
        nulls f }
{
    let x = input_value(records, row, nulls, Node(f.a));
    if f.kind == 4 {
        let y = input_value(records, row, nulls, Node(f.b));
        return compared(f.code, as_one(x), beside_value(text, x, y));
    }
    if f.kind == 8 {
        let low = input_value(records, row, nulls, Node(f.b));
        let high = input_value(records, row, nulls, Node(f.c));
        return between(
            f.code,
            as_one(x),
            beside_value(text, x, low),
            beside_value(text, x, high),
        );
    }
    if f.kind == 10 {
        return symbol_member(text, pool, fields_in(records, Node(f.b)), f.code == 1, x);
    }
    if f.kind == 6 {
        return Truth::from(is_null(x));
    }
    Truth::from(!is_null(x))
}
