// Merging one column into another, across an equality of the two.
ghost use Rattle.std.specs.Prelude.{◌≡◌, false, List, ℕ, ◌<◌, ◌≤◌, length, get_or};
ghost use Rattle.constraints.specs.Column as q;
ghost use Rattle.constraints.specs.Lined.{lined};
ghost use Rattle.column_constraints.specs.Abstraction.{Conjuncts, conjuncts, numbered, column_of, bound_of, values_of, Fine};
ghost use Rattle.column_constraints.specs.Abstraction.{limit_of, literal_at};
ghost use Rattle.column_constraints.specs.Abstraction.{kinds_in, values_in};
ghost use Rattle.column_sets.specs.Index.{Indexed};
ghost use Rattle.column_constraints.specs.Steps.{Lists, merging_of, emitting, recording};
ghost use Rattle.column_constraints.specs.Steps.{take_lower, take_upper, take_mark, take_marks};

use column_changes::changes::{allowed_changes, disallowed_changes, excluded_changes};
use column_constraints::bound::{Bound, Limit, is_change};
use column_constraints::column::{ColumnConstraints, Merged, add_lower, add_upper};
use column_sets::marks::{add_allowed, add_disallowed, add_excluded, number_set};
use column_sets::told::kind_at;
use records::bytes::byte;
use sorted::bits::has;

fn merge_lower_at(m: Merged, v: Limit, inclusive: bool) -> Merged
    ensures result_value { (t : Conjuncts) (a : List ℕ) → merging_of t a result ≡ emitting (q.Lower inclusive (limit_of v)) (merging_of t a m) }
    ensures len_value { result.column.len ≡ m.column.len }
{
    let c = m.column;
    let d = add_lower(c, v, inclusive);
    let e = d.column;
    let k = d.change;
    Merged {
        column: e,
        emitted: m.emitted | is_change(k),
        any: m.any,
    }
}

fn merge_upper_at(m: Merged, v: Limit, inclusive: bool) -> Merged
    ensures result_value { (t : Conjuncts) (a : List ℕ) → merging_of t a result ≡ emitting (q.Upper inclusive (limit_of v)) (merging_of t a m) }
    ensures len_value { result.column.len ≡ m.column.len }
{
    let c = m.column;
    let d = add_upper(c, v, inclusive);
    let e = d.column;
    let k = d.change;
    Merged {
        column: e,
        emitted: m.emitted | is_change(k),
        any: m.any,
    }
}

fn merge_lower(m: Merged, b: Bound) -> Merged
    ensures result_value { (t : Conjuncts) (a : List ℕ) → merging_of t a result ≡ take_lower (bound_of b) (merging_of t a m) }
    ensures len_value { result.column.len ≡ m.column.len }
{
    match b {
        Bound::Absent => m,
        Bound::Open(v) => merge_lower_at(m, v, false),
        Bound::Closed(v) => merge_lower_at(m, v, true),
    }
}

fn merge_upper(m: Merged, b: Bound) -> Merged
    ensures result_value { (t : Conjuncts) (a : List ℕ) → merging_of t a result ≡ take_upper (bound_of b) (merging_of t a m) }
    ensures len_value { result.column.len ≡ m.column.len }
{
    match b {
        Bound::Absent => m,
        Bound::Open(v) => merge_upper_at(m, v, false),
        Bound::Closed(v) => merge_upper_at(m, v, true),
    }
}

fn merge_excluded(told: &[u64], own: &mut [u8], m: Merged, j: u8) -> Merged
    requires { Fine (length own.old) own.old m.column.len × (j < length own.old) × (get_or (kinds_in told.now) j 0 ≡ 0) }
    ensures result_after { (t : Conjuncts) → t.kinds ≡ kinds_in told.now → t.values ≡ values_in told.now →
        merging_of t own.new result ≡ emitting (q.Exclude (literal_at (values_in told.now) j)) (merging_of t
        own.old m) }
    ensures fine { Fine (length own.old) own.new result.column.len }
{
    let c = m.column;
    let changed = excluded_changes(told, own, c, j);
    let d = add_excluded(told, own, c, j);
    Merged {
        column: d,
        emitted: m.emitted | changed,
        any: m.any,
    }
}

fn merge_allowed(
    index: &[u64],
    told: &[u64],
    pool: &[u8],
    own: &mut [u8],
    m: Merged,
    j: u8,
) -> Merged
    requires fine { Fine (length own.old) own.old m.column.len × (j < length own.old) × (get_or (kinds_in told.now) j 0 ≡ 1) }
    requires indexed { Indexed told.now pool.now index.now × (length own.old ≤ 128) }
    ensures result_after { (t : Conjuncts) → Lists t told.now
        pool.now → merging_of t own.new result ≡ recording (q.Allow (values_of t.starts t.counts t.pool j))
        (merging_of t own.old m) }
    ensures fine_2 { Fine (length own.old) own.new result.column.len }
{
    let c = m.column;
    if m.any {
        let e = add_allowed(own, c, j);
        return Merged {
            column: e,
            emitted: m.emitted,
            any: true,
        };
    }
    let changed = allowed_changes(index, told, pool, own, c, j);
    let d = add_allowed(own, c, j);
    Merged {
        column: d,
        emitted: m.emitted,
        any: m.any | changed,
    }
}

fn merge_disallowed(
    index: &[u64],
    told: &[u64],
    pool: &[u8],
    own: &mut [u8],
    m: Merged,
    j: u8,
) -> Merged
    requires fine { Fine (length own.old) own.old m.column.len × (j < length own.old) × (get_or (kinds_in told.now) j 0 ≡ 2) }
    requires indexed { Indexed told.now pool.now index.now × (length own.old ≤ 128) }
    ensures result_after { (t : Conjuncts) → Lists t told.now
        pool.now → merging_of t own.new result ≡ recording
        (q.Disallow false (values_of t.starts t.counts t.pool j)) (merging_of t own.old m) }
    ensures fine_2 { Fine (length own.old) own.new result.column.len }
{
    let c = m.column;
    if m.any {
        let e = add_disallowed(told, own, c, j, false);
        return Merged {
            column: e,
            emitted: m.emitted,
            any: true,
        };
    }
    let changed = disallowed_changes(index, told, pool, own, c, j);
    let d = add_disallowed(told, own, c, j, false);
    Merged {
        column: d,
        emitted: m.emitted,
        any: m.any | changed,
    }
}

// One number of the other column: an excluded value or a list, by its kind.
fn merge_mark(index: &[u64], told: &[u64], pool: &[u8], own: &mut [u8], m: Merged, j: u8) -> Merged
    requires fine { Fine (length own.old) own.old m.column.len × (j < length own.old) }
    requires indexed { Indexed told.now pool.now index.now × (length own.old ≤ 128) }
    ensures result_after { let t = conjuncts told.now pool.now in merging_of t own.new result ≡
        take_mark t j (merging_of t own.old m) }
    ensures fine_2 { Fine (length own.old) own.new result.column.len }
{
    let k = kind_at(told, j as usize);
    if k == 0 {
        return merge_excluded(told, own, m, j);
    }
    if k == 1 {
        return merge_allowed(index, told, pool, own, m, j);
    }
    if k == 2 {
        return merge_disallowed(index, told, pool, own, m, j);
    }
    m
}

fn merge_marks(
    index: &[u64],
    told: &[u64],
    pool: &[u8],
    own: &mut [u8],
    m0: Merged,
    marks: &[u8],
    n: usize,
) -> Merged
    requires fine { Fine (length own.old) own.old m0.column.len × Fine (length own.old) marks.now n }
    requires indexed { Indexed told.now pool.now index.now × (length own.old ≤ 128) }
    ensures result_after { let t = conjuncts told.now pool.now in merging_of t own.new result ≡
        take_marks t marks.now n
        (merging_of t own.old m0) }
    ensures fine_2 { Fine (length own.old) own.new result.column.len }
{
    let held = number_set(own, m0.column.len);
    let mut m = m0;
    for i in 0..n {
        let j = byte(marks, i);
        if !has(&held, 0, j as usize) {
            m = merge_mark(index, told, pool, own, m, j);
        }
    }
    m
}

/// All that the column d says, its numbers in `marks`, put into c, its numbers in `own`.
pub fn merge_from(
    index: &[u64],
    told: &[u64],
    pool: &[u8],
    own: &mut [u8],
    c: ColumnConstraints,
    marks: &[u8],
    d: ColumnConstraints,
) -> Merged
    requires fine { Fine (length own.old) own.old c.len × Fine (length own.old) marks.now d.len }
    requires indexed { Indexed told.now pool.now index.now × (length own.old ≤ 128) }
    ensures fact { let t = conjuncts told.now pool.now in
        (column_of t (numbered own.new result.column) ≡ q.merge_from lined (column_of t (numbered own.old c)) (column_of t (numbered marks.now d))) ×
        (result.emitted ≡ q.merge_emitted lined (column_of t (numbered own.old c)) (column_of t (numbered marks.now d))) ×
        (result.any ≡ q.merge_any lined (column_of t (numbered own.old c)) (column_of t (numbered marks.now d))) }
    ensures fine_2 { Fine (length own.old) own.new result.column.len }
{
    let low = d.lower;
    let upp = d.upper;
    let m0 = Merged {
        column: c,
        emitted: false,
        any: false,
    };
    let m1 = merge_lower(m0, low);
    let m2 = merge_upper(m1, upp);
    let mut m = merge_marks(index, told, pool, own, m2, marks, d.len);
    m.any = m.emitted | m.any;
    m
}
