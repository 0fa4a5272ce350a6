// `merge_filter_constraints`: what the merging concludes, and what is written of it.
ghost use Rattle.std.specs.Prelude.{◌≡◌, map, ℕ, ◌<◌, ◌≤◌, length, get_or};
ghost use Rattle.truth.specs.FromBytes.{aexpr_of};
ghost use Rattle.constraints.specs.Payload.{payload};
ghost use Rattle.column_constraints.specs.Abstraction.{conjuncts, kinds_in, values_in};
ghost use Rattle.column_sets.specs.Index.{Indexed};
ghost use Rattle.merge.specs.Classify.{classify};
ghost use Rattle.merge.specs.Passes.{merge_passes};
ghost use Rattle.read_operands.specs.Walk.{first_of};
ghost use Rattle.rewrite.specs.Told.{ToldConjunct};
ghost use Rattle.reading.specs.Columns.{ColumnsBelow};
ghost use Rattle.column_table.specs.Rows.{stride};
ghost use Rattle.filter_constraint.specs.Concluded.{lined_to};
ghost use Rattle.filter_constraint.specs.Merges.{Converted, Counts, Merges};
ghost use Rattle.filter_constraint.specs.Room.{Room};

use crate::merged::merge_columns;
use crate::rebuild::rebuild;
use column_table::words::CELLS;
use merge::answer::{RewriteAnswer, Rewriting};
use reckoning::reckon::nothing_passes;
use symbol_columns::convert::to_literals;

/// An answer with the passes made and the bytes of its text.
pub fn with_passes(answer: RewriteAnswer, passes: usize, length: usize) -> Rewriting
    ensures answer_value { result.answer ≡ answer }
    ensures passes_value { result.passes ≡ passes }
    ensures length_value { result.length ≡ length }
{
    Rewriting {
        answer: answer,
        passes: passes as u64,
        length: length as u64,
    }
}

// The Text columns of a screen with symbols hold literals of its records `own` then; of a screen without, `own` is empty.
fn put_literals(t: &[u8], own: &[u8], nodes: &[u32], cells: &mut [u64])
    requires { (0 < length own.now → length t.now ≤ 64) × (length cells.old ≡ 448) }
    ensures { Converted t.now own.now nodes.now cells.old cells.new }
{
    if own.len() == 0 {
        return;
    }
    to_literals(t, own, nodes, cells);
}

/// The first n of `nodes` are the screen's conjuncts; `told` is what they say, `trees` the
/// tree counts of the records up to the root. `index` is the index of the lists, or has none. `marks` has room
/// for the columns' numbers: 64 rows, n of them in each. `order` has room for two columns a conjunct, `kept`, `lefts`,
/// `rights` and `equals` for the conjuncts. Of a screen with symbols `rs` and `p` are the screen of ranks, `own` the records
/// sent and `text` the text pool; of one without, both are empty. `bits` is `told`
/// with the literals that are written.
pub fn merge_filter_constraints(
    t: &[u8],
    rs: &mut [u8],
    p: &[u8],
    used: u32,
    trees: &[u16],
    nodes: &[u32],
    n: usize,
    told: &[u64],
    index: &[u64],
    marks: &mut [u8],
    order: &mut [u32],
    kept: &mut [u32],
    lefts: &mut [u32],
    rights: &mut [u32],
    equals: &mut [u32],
    bits: &[u64],
    own: &[u8],
    text: &[u8],
    reasons: &mut [u8],
) -> Rewriting
    requires n_bound { (n ≤ stride marks.old) × (stride marks.old ≤ 128) × (used ≤ 4096) × (n ≤ length nodes.now)
        × Indexed told.now p.now index.now }
    requires room { Room n order.old kept.old lefts.old rights.old equals.old }
    requires by_index { (i : ℕ) → i < n → ToldConjunct (conjuncts told.now p.now) i
        (classify (aexpr_of rs.old p.now) (get_or nodes.now i 0)) }
    requires by_index_2 { (i : ℕ) → i < n → ColumnsBelow 64 (classify (aexpr_of rs.old p.now) (get_or nodes.now i 0)) }
    requires counts { Counts (lined_to (aexpr_of rs.old p.now) nodes.now n)
        (conjuncts told.now p.now) t.now own.now nodes.now (values_in bits.now) }
    requires bits_value { kinds_in bits.now ≡ kinds_in told.now }
    ensures merges { Merges (lined_to (aexpr_of rs.old p.now) nodes.now n)
        (conjuncts told.now p.now)
        t.now rs.old trees.now nodes.now (values_in bits.now) own.now
        text.now reasons.old used result rs.new reasons.new }
    ensures passes_value { result.passes ≡ merge_passes payload (map (classify (aexpr_of rs.old p.now))
        (first_of nodes.now n)) }
{
    let mut cells = [0u64; CELLS];
    let m = merge_columns(
        rs, p, nodes, n, told, index, &mut cells, marks, order, kept, lefts, rights, equals,
    );
    if m.unsat {
        return with_passes(nothing_passes(rs, used), m.passes, 0);
    }
    if m.unchanged {
        return with_passes(RewriteAnswer::Unchanged, m.passes, 0);
    }
    put_literals(t, own, nodes, &mut cells);
    let b = rebuild(
        t, rs, used, trees, bits, &cells, marks, order, m.columns, kept, m.keeps, m.total, text,
        reasons,
    );
    let answer = b.answer;
    with_passes(answer, m.passes, b.length)
}
