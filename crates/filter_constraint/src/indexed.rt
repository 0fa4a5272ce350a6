// The merging with an index of the lists. The index is large, so it has a frame of its own and only the screens that need it
// come here, with symbols or without: it has several callers, so that the compiler takes it into none of them.
ghost use Rattle.std.specs.Prelude.{◌≡◌, map, ℕ, ◌+◌, ◌<◌, ◌≤◌, length, get_or};
ghost use Rattle.truth.specs.FromBytes.{aexpr_of};
ghost use Rattle.constraints.specs.Payload.{payload};
ghost use Rattle.column_constraints.specs.Abstraction.{conjuncts, kinds_in, values_in};
ghost use Rattle.column_constraints.specs.Abstraction.{starts_in, counts_in};
ghost use Rattle.merge.specs.Classify.{classify};
ghost use Rattle.merge.specs.Passes.{merge_passes};
ghost use Rattle.read_operands.specs.Walk.{first_of};
ghost use Rattle.rewrite.specs.Told.{ToldConjunct};
ghost use Rattle.reading.specs.Columns.{ColumnsBelow};
ghost use Rattle.column_table.specs.Rows.{stride};
ghost use Rattle.filter_constraint.specs.Concluded.{lined_to};
ghost use Rattle.filter_constraint.specs.Merges.{Counts, Merges};
ghost use Rattle.filter_constraint.specs.Room.{Room};

use crate::merging::merge_filter_constraints;
use columns::index::{INDEX, WIDE_INDEX, make_index, make_wide_index};
use merge::answer::Rewriting;

/// `merge_filter_constraints` with an index of the lists, each of which ends before place 8192.
// The index has a frame of its own: one so large costs time even where it is not used.
#[inline(never)]
pub fn merge_indexed(
    t: &[u8],
    rs: &mut [u8],
    p: &[u8],
    used: u32,
    trees: &[u16],
    nodes: &[u32],
    n: usize,
    told: &[u64],
    marks: &mut [u8],
    order: &mut [u32],
    kept: &mut [u32],
    lefts: &mut [u32],
    rights: &mut [u32],
    equals: &mut [u32],
    bits: &[u64],
    own: &[u8],
    text: &[u8],
    reasons: &mut [u8],
) -> Rewriting
    requires n_bound { (n ≤ stride marks.old) × (stride marks.old ≤ 128) × (used ≤ 4096) × (n ≤ length nodes.now)
        × ((j : ℕ) → j < 128 → get_or (starts_in told.now) j 0 + get_or (counts_in told.now) j 0 ≤ 8192) }
    requires room { Room n order.old kept.old lefts.old rights.old equals.old }
    requires by_index { (i : ℕ) → i < n → ToldConjunct (conjuncts told.now p.now) i
        (classify (aexpr_of rs.old p.now) (get_or nodes.now i 0)) }
    requires by_index_2 { (i : ℕ) → i < n → ColumnsBelow 64 (classify (aexpr_of rs.old p.now) (get_or nodes.now i 0)) }
    requires counts { Counts (lined_to (aexpr_of rs.old p.now) nodes.now n)
        (conjuncts told.now p.now) t.now own.now nodes.now (values_in bits.now) }
    requires bits_value { kinds_in bits.now ≡ kinds_in told.now }
    ensures merges { Merges (lined_to (aexpr_of rs.old p.now) nodes.now n)
        (conjuncts told.now p.now)
        t.now rs.old trees.now nodes.now (values_in bits.now) own.now
        text.now reasons.old used result rs.new reasons.new }
    ensures passes_value { result.passes ≡ merge_passes payload (map (classify (aexpr_of rs.old p.now))
        (first_of nodes.now n)) }
{
    let mut index = [0u64; INDEX];
    make_index(told, p, &mut index);
    merge_filter_constraints(
        t, rs, p, used, trees, nodes, n, told, &index, marks, order, kept, lefts, rights, equals,
        bits, own, text, reasons,
    )
}

/// The same in a pool of 16,384 values, ranks and the values behind them; `sorted` and `scratch` are overwritten.
pub fn merge_wide(
    t: &[u8],
    rs: &mut [u8],
    p: &[u8],
    used: u32,
    trees: &[u16],
    nodes: &[u32],
    n: usize,
    told: &[u64],
    marks: &mut [u8],
    order: &mut [u32],
    kept: &mut [u32],
    lefts: &mut [u32],
    rights: &mut [u32],
    equals: &mut [u32],
    bits: &[u64],
    own: &[u8],
    text: &[u8],
    reasons: &mut [u8],
    sorted: &mut [u64],
    scratch: &mut [u64],
) -> Rewriting
    requires n_bound { (n ≤ stride marks.old) × (stride marks.old ≤ 128) × (used ≤ 4096) × (n ≤ length nodes.now)
        × (length sorted.old ≤ 12288) × (length sorted.old ≤ length scratch.old) }
    requires room { Room n order.old kept.old lefts.old rights.old equals.old }
    requires by_index { (i : ℕ) → i < n → ToldConjunct (conjuncts told.now p.now) i
        (classify (aexpr_of rs.old p.now) (get_or nodes.now i 0)) }
    requires by_index_2 { (i : ℕ) → i < n → ColumnsBelow 64 (classify (aexpr_of rs.old p.now) (get_or nodes.now i 0)) }
    requires counts { Counts (lined_to (aexpr_of rs.old p.now) nodes.now n)
        (conjuncts told.now p.now) t.now own.now nodes.now (values_in bits.now) }
    requires bits_value { kinds_in bits.now ≡ kinds_in told.now }
    ensures merges { Merges (lined_to (aexpr_of rs.old p.now) nodes.now n)
        (conjuncts told.now p.now)
        t.now rs.old trees.now nodes.now (values_in bits.now) own.now
        text.now reasons.old used result rs.new reasons.new }
    ensures passes_value { result.passes ≡ merge_passes payload (map (classify (aexpr_of rs.old p.now))
        (first_of nodes.now n)) }
{
    let mut index = [0u64; WIDE_INDEX];
    make_wide_index(told, p, &mut index, sorted, scratch);
    merge_filter_constraints(
        t, rs, p, used, trees, nodes, n, told, &index, marks, order, kept, lefts, rights, equals,
        bits, own, text, reasons,
    )
}
