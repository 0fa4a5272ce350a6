// Whether a literal or a list would change the three sets of a column, and whether an allowed value is feasible.
ghost use Rattle.std.specs.Prelude.{◌≡◌, true, false, not, ℕ, ◌+◌, ◌^◌, ◌<◌, get_or};
ghost use Rattle.records.specs.Bytes.{value_at};
ghost use Rattle.constraints.specs.Values.{contains, subset};
ghost use Rattle.constraints.specs.Column as q;
ghost use Rattle.constraints.specs.Resolve.{is_feasible, any_feasible, allowed_feasible};
ghost use Rattle.constraints.specs.Payload.{payload};
ghost use Rattle.constraints.specs.Lined.{lined};
ghost use Rattle.column_constraints.specs.Abstraction.{Conjuncts, conjuncts, numbered, column_of, list_of};
ghost use Rattle.column_constraints.specs.Abstraction.{literal_at, values_of};
ghost use Rattle.column_constraints.specs.Abstraction.{excluded_by, allowed_by, disallowed_by};
ghost use Rattle.column_constraints.specs.Abstraction.{kinds_in, values_in, starts_in, counts_in};
ghost use Rattle.column_sets.specs.Index.{Indexed, Low, KindSet};
ghost use Rattle.column_constraints.specs.Steps.{Lists, outside, any_of, any_of_kind, changes_in};

use column_constraints::bound::{clears_lower, clears_upper};
use column_constraints::column::ColumnConstraints;
use column_sets::marks::{
    allows_at, disallows_at, excludes, has_kind, has_mark, kind_set, listed_at, literal_at,
};
use column_sets::told::{count_at, kind_at, start_at};
use records::bytes::{byte, value_at};
use truth::scalar::Scalar;

// ---- whether an addition changes the column

pub fn excluded_changes(told: &[u64], marks: &[u8], c: ColumnConstraints, j: u8) -> bool
    ensures { (t : Conjuncts) → t.kinds ≡ kinds_in told.now → t.values ≡ values_in told.now →
        result ≡ changes_in (q.Exclude (literal_at (values_in told.now) j)) (column_of t (numbered marks.now c)) }
{
    if c.unsat {
        return false;
    }
    let v = literal_at(told, j);
    !excludes(told, marks, c.len, v)
}

fn is_outside(
    index: &[u64],
    told: &[u64],
    pool: &[u8],
    marks: &[u8],
    n: usize,
    allowed: &[u64],
    j: u8,
    p: usize,
) -> bool
    requires indexed { Indexed told.now pool.now index.now × (p < 2 ^ 34) }
    requires low { Low marks.now n × KindSet (kinds_in told.now) 1 marks.now n allowed.now }
    ensures { result ≡ outside (allowed_by (kinds_in told.now) (starts_in told.now) (counts_in told.now)
        pool.now marks.now n) (values_of (starts_in told.now) (counts_in told.now)
        pool.now j) (value_at pool.now p) }
{
    if listed_at(index, told, pool, j, p) {
        return false;
    }
    allows_at(index, told, pool, marks, n, allowed, p)
}

// Has the list of f, one of the allowed ones, a value in all of them that is not in the list of j.
fn any_outside(
    index: &[u64],
    told: &[u64],
    pool: &[u8],
    marks: &[u8],
    n: usize,
    allowed: &[u64],
    f: u8,
    j: u8,
) -> bool
    requires indexed { Indexed told.now pool.now index.now }
    requires low { Low marks.now n × KindSet (kinds_in told.now) 1 marks.now n allowed.now }
    ensures { result ≡ any_of (λ (v : ℕ). outside (allowed_by (kinds_in told.now) (starts_in told.now)
        (counts_in told.now) pool.now marks.now n)
        (values_of (starts_in told.now) (counts_in told.now) pool.now j) v)
        (list_of (starts_in told.now) (counts_in told.now) pool.now f) }
{
    let s = start_at(told, f as usize) as usize;
    let m = count_at(told, f as usize) as usize;
    (0..m).any(|i| is_outside(index, told, pool, marks, n, allowed, j, s + i))
}

// Is some value that every allowed list has not in the list of j. With no allowed list yet, the list itself is news.
fn allowed_narrows(index: &[u64], told: &[u64], pool: &[u8], marks: &[u8], n: usize, j: u8) -> bool
    requires { Indexed told.now pool.now index.now × Low marks.now n }
    ensures { result ≡ q.allowed_changes lined (allowed_by (kinds_in told.now) (starts_in told.now)
        (counts_in told.now) pool.now marks.now n)
        (values_of (starts_in told.now) (counts_in told.now) pool.now j) }
{
    for i in 0..n {
        let f = byte(marks, i);
        if kind_at(told, f as usize) == 1 {
            let allowed = kind_set(told, marks, n, 1);
            return any_outside(index, told, pool, marks, n, &allowed, f, j);
        }
    }
    true
}

pub fn allowed_changes(
    index: &[u64],
    told: &[u64],
    pool: &[u8],
    marks: &[u8],
    c: ColumnConstraints,
    j: u8,
) -> bool
    requires j_value { get_or (kinds_in told.now) j 0 ≡ 1 }
    requires indexed { Indexed told.now pool.now index.now × Low marks.now c.len }
    ensures { (t : Conjuncts) → Lists t told.now
        pool.now → result ≡ changes_in (q.Allow (values_of t.starts t.counts t.pool j)) (column_of t (numbered marks.now c)) }
{
    if c.unsat {
        return false;
    }
    if has_mark(marks, c.len, j) {
        return false;
    }
    allowed_narrows(index, told, pool, marks, c.len, j)
}

// Has the list of j a value that is not disallowed yet.
fn disallowed_widens(
    index: &[u64],
    told: &[u64],
    pool: &[u8],
    marks: &[u8],
    n: usize,
    j: u8,
) -> bool
    requires { Indexed told.now pool.now index.now × Low marks.now n }
    ensures { result ≡ not (subset lined (values_of (starts_in told.now) (counts_in told.now) pool.now
        j) (disallowed_by (kinds_in told.now) (starts_in told.now) (counts_in told.now) pool.now
        marks.now n)) }
{
    let disallowed = kind_set(told, marks, n, 2);
    let s = start_at(told, j as usize) as usize;
    let m = count_at(told, j as usize) as usize;
    (0..m).any(|i| !disallows_at(index, told, pool, marks, n, &disallowed, s + i))
}

pub fn disallowed_changes(
    index: &[u64],
    told: &[u64],
    pool: &[u8],
    marks: &[u8],
    c: ColumnConstraints,
    j: u8,
) -> bool
    requires j_value { get_or (kinds_in told.now) j 0 ≡ 2 }
    requires indexed { Indexed told.now pool.now index.now × Low marks.now c.len }
    ensures { (t : Conjuncts) → Lists t told.now
        pool.now → result ≡ changes_in (q.Disallow false (values_of t.starts t.counts t.pool j))
        (column_of t (numbered marks.now c)) }
{
    if c.unsat {
        return false;
    }
    if has_mark(marks, c.len, j) {
        return false;
    }
    disallowed_widens(index, told, pool, marks, c.len, j)
}

// ---- feasible values

// Is v an excluded value; `excluding`: some number excludes one. Most columns with lists have none.
fn excludes_if(excluding: bool, told: &[u64], marks: &[u8], n: usize, v: Scalar) -> bool
    requires { excluding ≡ any_of_kind (kinds_in told.now) 0 marks.now n }
    ensures { result ≡ contains lined (payload.key v.0) (excluded_by (kinds_in told.now) (values_in told.now)
        marks.now n) }
{
    if !excluding {
        return false;
    }
    excludes(told, marks, n, v)
}

/// Does the value at place p survive the bounds and the three sets.
fn is_feasible(
    index: &[u64],
    told: &[u64],
    pool: &[u8],
    marks: &[u8],
    allowed: &[u64],
    disallowed: &[u64],
    excluding: bool,
    c: ColumnConstraints,
    p: usize,
) -> bool
    requires indexed { Indexed told.now pool.now index.now × (p < 2 ^ 34) }
    requires low { Low marks.now c.len × KindSet (kinds_in told.now) 1 marks.now c.len allowed.now
        × KindSet (kinds_in told.now) 2 marks.now c.len disallowed.now }
    requires excluding_value { excluding ≡ any_of_kind (kinds_in told.now) 0 marks.now c.len }
    ensures { result ≡ is_feasible lined (column_of (conjuncts told.now pool.now) (numbered marks.now c))
        (payload.key (value_at pool.now p)) }
{
    let v = Scalar(value_at(pool, p));
    let low = c.lower;
    if !clears_lower(low, v) {
        return false;
    }
    let upp = c.upper;
    if !clears_upper(upp, v) {
        return false;
    }
    if excludes_if(excluding, told, marks, c.len, v) {
        return false;
    }
    if !allows_at(index, told, pool, marks, c.len, allowed, p) {
        return false;
    }
    !disallows_at(index, told, pool, marks, c.len, disallowed, p)
}

// Is some value of the list of f feasible.
fn any_feasible(
    index: &[u64],
    told: &[u64],
    pool: &[u8],
    marks: &[u8],
    c: ColumnConstraints,
    f: u8,
) -> bool
    requires { Indexed told.now pool.now index.now × Low marks.now c.len }
    ensures { result ≡ any_feasible lined (column_of (conjuncts told.now pool.now) (numbered marks.now c))
        (values_of (starts_in told.now) (counts_in told.now) pool.now f) }
{
    let allowed = kind_set(told, marks, c.len, 1);
    let disallowed = kind_set(told, marks, c.len, 2);
    let excluding = has_kind(told, marks, c.len, 0);
    let s = start_at(told, f as usize) as usize;
    let m = count_at(told, f as usize) as usize;
    (0..m).any(|i| {
        is_feasible(
            index,
            told,
            pool,
            marks,
            &allowed,
            &disallowed,
            excluding,
            c,
            s + i,
        )
    })
}

/// Is some allowed value feasible; true of a column with no allowed list.
pub fn any_allowed(
    index: &[u64],
    told: &[u64],
    pool: &[u8],
    marks: &[u8],
    c: ColumnConstraints,
) -> bool
    requires { Indexed told.now pool.now index.now × Low marks.now c.len }
    ensures { let t = conjuncts told.now pool.now in result ≡ allowed_feasible lined (column_of t
        (numbered marks.now c))
        (column_of t (numbered marks.now c)).allowed }
{
    let n = c.len;
    for i in 0..n {
        let f = byte(marks, i);
        if kind_at(told, f as usize) == 1 {
            return any_feasible(index, told, pool, marks, c, f);
        }
    }
    true
}
