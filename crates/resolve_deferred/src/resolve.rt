// Resolving the excluded values, the allowed lists and the disallowed values against the final bounds.
ghost use Rattle.std.specs.Prelude.{◌≡◌, true, false, cond, List, ℕ, ◌≤◌, ◌<◌, length, get_or};
ghost use Rattle.std.proofs.Math.Option.{none, some};
ghost use Rattle.truth.specs.Order.{is_equal};
ghost use Rattle.constraints.specs.Bound.{at};
ghost use Rattle.constraints.specs.Column as q;
ghost use Rattle.constraints.specs.Resolve as z;
ghost use Rattle.constraints.specs.Lined.{lined};
ghost use Rattle.column_constraints.specs.Abstraction.{Conjuncts, conjuncts, numbered, column_of, bound_of, fixed_of, Fine};
ghost use Rattle.column_constraints.specs.Abstraction.{limit_of, literal_at};
ghost use Rattle.column_constraints.specs.Abstraction.{kinds_in, values_in};
ghost use Rattle.column_sets.specs.Index.{Indexed, Low};
ghost use Rattle.column_constraints.specs.Steps.{Lists, apply_excluded, step_excluded, step_mark, step_marks, begun};
ghost use Rattle.constraints.specs.declared.column.ExcludedResolution.TheVariants.{Keep};
ghost use Rattle.constraints.specs.declared.column.ExcludedResolution.TheVariants.{TightenLower};
ghost use Rattle.constraints.specs.declared.column.ExcludedResolution.TheVariants.{TightenUpper};

use column_changes::changes::any_allowed;
use column_constraints::bound::{Bound, Limit, compare, is_absent};
use column_constraints::column::{ColumnConstraints, check_bound_consistency, is_null};
use column_sets::marks::{copied, disallows, has_kind, insert_excluded, insert_list, limit_at};
use column_sets::told::kind_at;
use constraints::column::ExcludedResolution;
use records::bytes::byte;
use std::cmp::Ordering;

fn classify_upper_by(o: Ordering, inclusive: bool) -> ExcludedResolution
    ensures { result ≡ z.classify_by o inclusive TightenUpper Keep }
{
    match o {
        Ordering::Less => ExcludedResolution::Drop,
        Ordering::Equal => if inclusive {
            ExcludedResolution::TightenUpper
        } else {
            ExcludedResolution::Drop
        },
        Ordering::Greater => ExcludedResolution::Keep,
    }
}

fn classify_upper(u: Bound, e: Limit) -> ExcludedResolution
    ensures { result ≡ z.classify_upper lined (bound_of u) (limit_of e) }
{
    match u {
        Bound::Absent => ExcludedResolution::Keep,
        Bound::Open(w) => {
            let o = compare(w, e);
            classify_upper_by(o, false)
        }
        Bound::Closed(w) => {
            let o = compare(w, e);
            classify_upper_by(o, true)
        }
    }
}

fn classify_lower_by(o: Ordering, inclusive: bool, u: Bound, e: Limit) -> ExcludedResolution
    ensures { result ≡ z.classify_by o inclusive TightenLower (z.classify_upper lined (bound_of u) (limit_of e)) }
{
    match o {
        Ordering::Less => ExcludedResolution::Drop,
        Ordering::Equal => if inclusive {
            ExcludedResolution::TightenLower
        } else {
            ExcludedResolution::Drop
        },
        Ordering::Greater => classify_upper(u, e),
    }
}

fn classify_at(l: Bound, u: Bound, e: Limit) -> ExcludedResolution
    ensures { result ≡ z.classify_at lined (bound_of l) (bound_of u) (limit_of e) }
{
    match l {
        Bound::Absent => classify_upper(u, e),
        Bound::Open(w) => {
            let o = compare(e, w);
            classify_lower_by(o, false, u, e)
        }
        Bound::Closed(w) => {
            let o = compare(e, w);
            classify_lower_by(o, true, u, e)
        }
    }
}

/// The value that the bounds pin the column to: the single value of a closed range that is a point.
pub fn fixed_value(c: ColumnConstraints) -> Option<Limit>
    ensures { (t : Conjuncts) (a : List ℕ) → fixed_of result ≡ z.fixed_value lined (column_of t (numbered a c)) }
{
    match (c.lower, c.upper) {
        (Bound::Closed(v), Bound::Closed(w)) if matches!(compare(v, w), Ordering::Equal) => Some(v),
        _ => None,
    }
}

/// What becomes of the excluded value e under the column's bounds.
pub fn classify_excluded(c: ColumnConstraints, e: Limit) -> ExcludedResolution
    ensures { (t : Conjuncts) (a : List ℕ) → result ≡ z.classify_excluded lined (column_of t (numbered a c)) (limit_of e) }
{
    let low = c.lower;
    let upp = c.upper;
    classify_at(low, upp, e)
}

fn open_at(w: Limit, v: Limit) -> Bound
    ensures { bound_of result ≡ at false (lined.opened (limit_of w) (limit_of v)) }
{
    let value = v.value;
    let limit = Limit {
        value: value,
        line: w.line,
        opener: v.line as u32 + 1,
    };
    Bound::Open(limit)
}

// The end on which the excluded value v lies becomes exclusive. It keeps the number of the conjunct that gave it, beside
// that of v's.
fn opened(b: Bound, v: Limit) -> Bound
    ensures { bound_of result ≡ z.open_at lined (bound_of b) (limit_of v) }
{
    match b {
        Bound::Absent => Bound::Open(v),
        Bound::Open(w) => open_at(w, v),
        Bound::Closed(w) => open_at(w, v),
    }
}

fn open_lower(c: ColumnConstraints, v: Limit) -> ColumnConstraints
    ensures result_value { (t : Conjuncts) (a : List ℕ) → column_of t (numbered a result) ≡ q.set_lower (z.open_at lined (bound_of c.lower) (limit_of v)) (column_of t (numbered a c)) }
    ensures len_value { result.len ≡ c.len }
{
    let low = c.lower;
    let upp = c.upper;
    let nul = c.nullability;
    ColumnConstraints {
        lower: opened(low, v),
        upper: upp,
        len: c.len,
        strict: c.strict,
        nullability: nul,
        since: c.since,
        unsat: c.unsat,
    }
}

fn open_upper(c: ColumnConstraints, v: Limit) -> ColumnConstraints
    ensures result_value { (t : Conjuncts) (a : List ℕ) → column_of t (numbered a result) ≡ q.set_upper (z.open_at lined (bound_of c.upper) (limit_of v)) (column_of t (numbered a c)) }
    ensures len_value { result.len ≡ c.len }
{
    let low = c.lower;
    let upp = c.upper;
    let nul = c.nullability;
    ColumnConstraints {
        lower: low,
        upper: opened(upp, v),
        len: c.len,
        strict: c.strict,
        nullability: nul,
        since: c.since,
        unsat: c.unsat,
    }
}

fn apply_excluded(told: &[u64], own: &mut [u8], c: ColumnConstraints, j: u8) -> ColumnConstraints
    requires { Fine (length own.old) own.old c.len × (j < length own.old) × (get_or (kinds_in told.now) j 0 ≡ 0) }
    ensures result_after { (t : Conjuncts) → t.kinds ≡ kinds_in told.now → t.values ≡ values_in told.now →
        column_of t (numbered own.new result) ≡ apply_excluded (literal_at (values_in told.now) j) (column_of
        t (numbered own.old c)) }
    ensures fine { Fine (length own.old) own.new result.len }
{
    let v = limit_at(told, j);
    let f = classify_excluded(c, v);
    match f {
        ExcludedResolution::Drop => c,
        ExcludedResolution::Keep => insert_excluded(told, own, c, j),
        ExcludedResolution::TightenLower => open_lower(c, v),
        ExcludedResolution::TightenUpper => open_upper(c, v),
    }
}

// One excluded value. A range found empty takes no further one.
fn step_excluded(told: &[u64], own: &mut [u8], c: ColumnConstraints, j: u8) -> ColumnConstraints
    requires { Fine (length own.old) own.old c.len × (j < length own.old) × (get_or (kinds_in told.now) j 0 ≡ 0) }
    ensures result_after { (t : Conjuncts) → t.kinds ≡ kinds_in told.now → t.values ≡ values_in told.now →
        column_of t (numbered own.new result) ≡ step_excluded (literal_at (values_in told.now) j) (column_of
        t (numbered own.old c)) }
    ensures fine { Fine (length own.old) own.new result.len }
{
    if c.unsat {
        return c;
    }
    let d = apply_excluded(told, own, c, j);
    check_bound_consistency(d)
}

fn step_mark(told: &[u64], own: &mut [u8], c: ColumnConstraints, j: u8) -> ColumnConstraints
    requires { Fine (length own.old) own.old c.len × (j < length own.old) }
    ensures result_after { (t : Conjuncts) → t.kinds ≡ kinds_in told.now → t.values ≡ values_in told.now →
        column_of t (numbered own.new result) ≡ step_mark t j (column_of t (numbered own.old c)) }
    ensures fine { Fine (length own.old) own.new result.len }
{
    let k = kind_at(told, j as usize);
    if k == 0 {
        return step_excluded(told, own, c, j);
    }
    if k == 1 {
        return insert_list(own, c, j);
    }
    if k == 2 {
        return insert_list(own, c, j);
    }
    c
}

fn begin_walk(c: ColumnConstraints) -> ColumnConstraints
    ensures result_value { (t : Conjuncts) (a : List ℕ) → column_of t (numbered a result) ≡ begun (column_of t (numbered a c)) }
    ensures len_value { result.len ≡ 0 }
{
    let low = c.lower;
    let upp = c.upper;
    let nul = c.nullability;
    ColumnConstraints {
        lower: low,
        upper: upp,
        len: 0,
        strict: c.strict,
        nullability: nul,
        since: c.since,
        unsat: false,
    }
}

// The column anew from its bounds: each number in turn, excluded values resolved against the bounds so far.
fn step_marks(
    told: &[u64],
    own: &mut [u8],
    c0: ColumnConstraints,
    marks: &[u8],
    n: usize,
) -> ColumnConstraints
    requires { Fine (length own.old) own.old c0.len × Fine (length own.old) marks.now n }
    ensures result_after { (t : Conjuncts) → t.kinds ≡ kinds_in told.now → t.values ≡ values_in told.now →
        column_of t (numbered own.new result) ≡ step_marks t marks.now n (column_of t (numbered own.old c0)) }
    ensures fine { Fine (length own.old) own.new result.len }
{
    let mut c = c0;
    for i in 0..n {
        let j = byte(marks, i);
        c = step_mark(told, own, c, j);
    }
    c
}

pub fn has_value_constraint(told: &[u64], marks: &[u8], c: ColumnConstraints) -> bool
    ensures { (t : Conjuncts) → t.kinds ≡ kinds_in told.now → result ≡ z.has_value_constraint (column_of t
        (numbered marks.now c)) }
{
    let low = c.lower;
    let upp = c.upper;
    if !is_absent(low) {
        return true;
    }
    if !is_absent(upp) {
        return true;
    }
    if has_kind(told, marks, c.len, 0) {
        return true;
    }
    if has_kind(told, marks, c.len, 1) {
        return true;
    }
    c.strict
}

fn null_conflict(told: &[u64], marks: &[u8], c: ColumnConstraints) -> bool
    ensures { (t : Conjuncts) → t.kinds ≡ kinds_in told.now → result ≡ z.null_conflict (column_of t
        (numbered marks.now c)) }
{
    let nul = c.nullability;
    if !is_null(nul) {
        return false;
    }
    has_value_constraint(told, marks, c)
}

fn fixed_disallowed(told: &[u64], pool: &[u8], marks: &[u8], c: ColumnConstraints) -> bool
    ensures { (t : Conjuncts) → Lists t told.now
        pool.now → result ≡ z.fixed_disallowed lined (column_of t (numbered marks.now c)) (z.fixed_value lined (column_of t (numbered marks.now c))) }
{
    match fixed_value(c) {
        None => false,
        Some(v) => disallows(told, pool, marks, c.len, v.value),
    }
}

// The last two tests: some allowed value is feasible, and the value that the bounds pin is not disallowed.
fn with_lists(
    index: &[u64],
    told: &[u64],
    pool: &[u8],
    marks: &[u8],
    mut c: ColumnConstraints,
) -> ColumnConstraints
    requires { Indexed told.now pool.now index.now × Low marks.now c.len }
    ensures result_value { let t = conjuncts told.now pool.now in column_of t (numbered marks.entry.now result) ≡ z.with_lists lined (column_of t (numbered marks.now c)) }
    ensures len_value { result.len ≡ c.len }
{
    if c.unsat {
        return c;
    }
    let a = any_allowed(index, told, pool, marks, c);
    let p = fixed_disallowed(told, pool, marks, c);
    c.unsat = !a | p;
    c
}

pub fn resolve_deferred(
    index: &[u64],
    told: &[u64],
    pool: &[u8],
    own: &mut [u8],
    c: ColumnConstraints,
) -> ColumnConstraints
    requires fine { Fine (length own.old) own.old c.len × (length own.old ≤ 128) }
    requires indexed { Indexed told.now pool.now index.now }
    ensures result_value { let t = conjuncts told.now pool.now in column_of t (numbered own.exit.now result) ≡ z.resolve_deferred lined (column_of t (numbered own.old c)) }
    ensures fine_2 { Fine (length own.old) own.new result.len }
{
    let conflict = null_conflict(told, own, c);
    let old = copied(own, c.len);
    let w = begin_walk(c);
    let mut d = step_marks(told, own, w, &old, c.len);
    d.unsat = c.unsat | (conflict | d.unsat);
    with_lists(index, told, pool, own, d)
}
