// The two evaluators, which call each other: comparisons and divisions ask for the values of their inputs, logic for
// their truths.
// Inputs are below their record, so the record number falls from each record to its inputs. Nothing is checked here.
ghost use Rattle.std.specs.Prelude.{◌≡◌};
ghost use Rattle.truth.specs.Evaluate.{keyed, row_truth, row_value, Evaluable};

use membership::member::member;
use records::record::{Node, fields_in};
use three_valued::logic::{Truth, not_of};
use truth::read::leaf_value;
use truth::value::{
    Value, between, compared, connected, divided, is_null, truth_of_value, value_of_truth,
};

// The truth of record `n` under the row.
#[cycle(truth_at_value_at)]
pub fn truth_at(records: &[u8], pool: &[u8], row: &[u8], nulls: u64, n: Node) -> Truth
    requires { Evaluable records.now pool.now row.now n.0 }
    ensures { result ≡ row_truth records.now pool.now row.now nulls n.0 }
{
    let f = fields_in(records, n);
    let kind = f.kind;
    match kind {
        4 => {
            if f.code < 8 {
                let x = value_at(records, pool, row, nulls, Node(f.a));
                let y = value_at(records, pool, row, nulls, Node(f.b));
                return compared(f.code, x, y);
            }
            if f.code < 15 {
                let x = value_at(records, pool, row, nulls, Node(f.a));
                let y = value_at(records, pool, row, nulls, Node(f.b));
                return truth_of_value(divided(f.code, x, y));
            }
            let s = truth_at(records, pool, row, nulls, Node(f.a));
            let t = truth_at(records, pool, row, nulls, Node(f.b));
            connected(f.code, s, t)
        }
        5 => not_of(truth_at(records, pool, row, nulls, Node(f.a))),
        6 => Truth::from(is_null(value_at(records, pool, row, nulls, Node(f.a)))),
        7 => Truth::from(!is_null(value_at(records, pool, row, nulls, Node(f.a)))),
        8 => {
            let x = value_at(records, pool, row, nulls, Node(f.a));
            let low = value_at(records, pool, row, nulls, Node(f.b));
            let high = value_at(records, pool, row, nulls, Node(f.c));
            between(f.code, x, low, high)
        }
        10 => {
            let x = value_at(records, pool, row, nulls, Node(f.a));
            member(pool, fields_in(records, Node(f.b)), f.code == 1, x)
        }
        _ => truth_of_value(leaf_value(f, row, nulls)),
    }
}

// The value of record `n` under the row; a truth is a value too.
#[cycle(truth_at_value_at)]
pub fn value_at(records: &[u8], pool: &[u8], row: &[u8], nulls: u64, n: Node) -> Value
    requires { Evaluable records.now pool.now row.now n.0 }
    ensures { keyed result ≡ row_value records.now pool.now row.now nulls n.0 }
{
    let f = fields_in(records, n);
    if f.kind <= 3 {
        return leaf_value(f, row, nulls);
    }
    let kind = f.kind;
    match kind {
        4 => {
            if f.code < 8 {
                let x = value_at(records, pool, row, nulls, Node(f.a));
                let y = value_at(records, pool, row, nulls, Node(f.b));
                return value_of_truth(compared(f.code, x, y));
            }
            if f.code < 15 {
                let x = value_at(records, pool, row, nulls, Node(f.a));
                let y = value_at(records, pool, row, nulls, Node(f.b));
                return divided(f.code, x, y);
            }
            let s = truth_at(records, pool, row, nulls, Node(f.a));
            let t = truth_at(records, pool, row, nulls, Node(f.b));
            value_of_truth(connected(f.code, s, t))
        }
        5 => value_of_truth(not_of(truth_at(records, pool, row, nulls, Node(f.a)))),
        6 => value_of_truth(Truth::from(is_null(value_at(records, pool, row, nulls, Node(f.a))))),
        7 => value_of_truth(Truth::from(!is_null(value_at(records, pool, row, nulls, Node(f.a))))),
        8 => {
            let x = value_at(records, pool, row, nulls, Node(f.a));
            let low = value_at(records, pool, row, nulls, Node(f.b));
            let high = value_at(records, pool, row, nulls, Node(f.c));
            value_of_truth(between(f.code, x, low, high))
        }
        10 => {
            let x = value_at(records, pool, row, nulls, Node(f.a));
            value_of_truth(member(pool, fields_in(records, Node(f.b)), f.code == 1, x))
        }
        _ => value_of_truth(truth_of_value(leaf_value(f, row, nulls))),
    }
}
