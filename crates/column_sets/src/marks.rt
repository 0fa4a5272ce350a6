// The three sets of a column. A number of a conjunct stands for its literal or for its list, as the table `told` says.
ghost use Rattle.std.specs.Prelude.{◌≡◌, true, false, not, ◌&&◌, ℕ, ◌+◌, ◌^◌, ◌<◌, ◌≤◌, length, get_or, set};
ghost use Rattle.records.specs.Bytes.{value_at};
ghost use Rattle.truth.specs.FromBytes.{values_from};
ghost use Rattle.truth.specs.Order.{is_equal};
ghost use Rattle.constraints.specs.Scalars.{scalar_cmp};
ghost use Rattle.constraints.specs.Values.{contains};
ghost use Rattle.constraints.specs.Column as q;
ghost use Rattle.constraints.specs.Resolve.{is_allowed};
ghost use Rattle.constraints.specs.Payload.{payload};
ghost use Rattle.constraints.specs.Lined.{lined};
ghost use Rattle.column_constraints.specs.Abstraction.{Conjuncts, numbered, column_of, list_of, of_kind};
ghost use Rattle.column_constraints.specs.Abstraction.{limit_of, literal_at, values_of};
ghost use Rattle.column_constraints.specs.Abstraction.{excluded_by, allowed_by, disallowed_by, marked, Fine, longer};
ghost use Rattle.column_constraints.specs.Abstraction.{kinds_in, values_in, starts_in, counts_in};
ghost use Rattle.column_sets.specs.Index.{value_in, Indexed, Low, NumberSet, KindSet};
ghost use Rattle.column_constraints.specs.Steps.{any_of_kind};

use crate::told::{count_at, kind_at, start_at, word_at};
use column_constraints::bound::{Limit, same};
use column_constraints::column::ColumnConstraints;
use limits::CONJUNCTS;
use records::bytes::{byte, value_at};
use sorted::bits::{has, meets, put, within};
use truth::scalar::Scalar;

pub fn number_at(words: &[u32], i: usize) -> u32
    ensures { result ≡ get_or words.now i 0 }
{
    if i < words.len() {
        return words[i];
    }
    0
}

pub fn literal_at(told: &[u64], j: u8) -> Scalar
    ensures { result.0 ≡ get_or (values_in told.now) j 0 }
{
    Scalar(word_at(told, j as usize))
}

/// The same, with the number.
pub fn limit_at(told: &[u64], j: u8) -> Limit
    ensures { limit_of result ≡ literal_at (values_in told.now) j }
{
    Limit {
        value: literal_at(told, j),
        line: j,
        opener: 0,
    }
}

// ---- membership

fn is_excluded_by(told: &[u64], j: u8, v: Scalar) -> bool
    ensures { result ≡ (of_kind (kinds_in told.now) 0 j && is_equal
        (scalar_cmp payload v.0 (get_or (values_in told.now) j 0))) }
{
    let w = literal_at(told, j);
    (kind_at(told, j as usize) == 0) & same(v, w)
}

/// Is v an excluded value.
pub fn excludes(told: &[u64], marks: &[u8], n: usize, v: Scalar) -> bool
    ensures { result ≡ contains lined (payload.key v.0) (excluded_by (kinds_in told.now) (values_in told.now)
        marks.now n) }
{
    // A closure would have told, marks and v in memory: twice the time of a value.
    for i in 0..n {
        let j = byte(marks, i);
        if is_excluded_by(told, j, v) {
            return true;
        }
    }
    false
}

fn in_list(pool: &[u8], start: u32, count: u32, v: Scalar) -> bool
    ensures { result ≡ contains payload (payload.key v.0) (values_from pool.now start count) }
{
    let s = start as usize;
    for i in 0..count as usize {
        let w = Scalar(value_at(pool, s + i));
        if same(v, w) {
            return true;
        }
    }
    false
}

/// Is v in the list of conjunct j.
pub fn listed(told: &[u64], pool: &[u8], j: u8, v: Scalar) -> bool
    ensures { result ≡ contains payload (payload.key v.0) (list_of (starts_in told.now) (counts_in told.now)
        pool.now j) }
{
    let s = start_at(told, j as usize);
    let n = count_at(told, j as usize);
    in_list(pool, s, n, v)
}

fn is_disallowed_by(told: &[u64], pool: &[u8], j: u8, v: Scalar) -> bool
    ensures { result ≡ (of_kind (kinds_in told.now) 2 j && contains payload (payload.key v.0)
        (list_of (starts_in told.now) (counts_in told.now) pool.now j)) }
{
    if kind_at(told, j as usize) != 2 {
        return false;
    }
    listed(told, pool, j, v)
}

/// Is v a disallowed value.
pub fn disallows(told: &[u64], pool: &[u8], marks: &[u8], n: usize, v: Scalar) -> bool
    ensures { result ≡ contains lined (payload.key v.0)
        (disallowed_by (kinds_in told.now) (starts_in told.now) (counts_in told.now) pool.now
        marks.now n) }
{
    for i in 0..n {
        let j = byte(marks, i);
        if is_disallowed_by(told, pool, j, v) {
            return true;
        }
    }
    false
}

fn is_barred_by(told: &[u64], pool: &[u8], j: u8, v: Scalar) -> bool
    ensures { result ≡ (of_kind (kinds_in told.now) 1 j && not (contains payload (payload.key v.0)
        (list_of (starts_in told.now) (counts_in told.now) pool.now j))) }
{
    if kind_at(told, j as usize) != 1 {
        return false;
    }
    !listed(told, pool, j, v)
}

/// Is v in every allowed list.
pub fn allows(told: &[u64], pool: &[u8], marks: &[u8], n: usize, v: Scalar) -> bool
    ensures { result ≡ is_allowed lined (allowed_by (kinds_in told.now) (starts_in told.now)
        (counts_in told.now)
        pool.now marks.now n) (payload.key v.0) }
{
    for i in 0..n {
        let j = byte(marks, i);
        if is_barred_by(told, pool, j, v) {
            return false;
        }
    }
    true
}

pub fn has_mark(marks: &[u8], n: usize, j: u8) -> bool
    ensures { result ≡ marked marks.now n j }
{
    for i in 0..n {
        let m = byte(marks, i);
        if m == j {
            return true;
        }
    }
    false
}

// ---- numbers of conjuncts as sets

/// The numbers of a column as a set.
pub fn number_set(marks: &[u8], n: usize) -> [u64; 2]
    requires { Low marks.now n }
    ensures { NumberSet marks.now n result }
{
    let mut set = [0u64; 2];
    for i in 0..n {
        let j = byte(marks, i);
        put(&mut set, 0, j as usize);
    }
    set
}

/// Those of kind k.
pub fn kind_set(told: &[u64], marks: &[u8], n: usize, k: u64) -> [u64; 2]
    requires { Low marks.now n }
    ensures { KindSet (kinds_in told.now) k marks.now n result }
{
    let mut set = [0u64; 2];
    for i in 0..n {
        let j = byte(marks, i);
        if kind_at(told, j as usize) == k {
            put(&mut set, 0, j as usize);
        }
    }
    set
}

// ---- looking up

// Place p if the index has so many words, else place 0: read without a branch, so that one test decides and the walk over the lists
// stays off the way.
fn place_in(index: &[u64], p: usize) -> usize
    requires { 0 < length index.now }
    ensures upper_bound { result < length index.now }
    ensures value { p < length index.now → result ≡ p }
{
    if p < index.len() { p } else { 0 }
}

// The word at which the set of the value at place p begins, if the index covers p.
fn set_of(index: &[u64], p: usize) -> usize
    requires { 0 < length index.now }
    ensures { p < length index.now → result ≡ get_or index.now p 0 }
{
    index[place_in(index, p)] as usize
}

/// Is the value at place p in the list of conjunct j.
pub fn listed_at(index: &[u64], told: &[u64], pool: &[u8], j: u8, p: usize) -> bool
    requires { Indexed told.now pool.now index.now × (p < 2 ^ 34) }
    ensures { result ≡ value_in pool.now p (list_of (starts_in told.now) (counts_in told.now)
        pool.now j) }
{
    let at = set_of(index, p);
    if ((p + 4096 < index.len() / 2) & (0 < at)) & (j < 128) {
        return has(index, at, j as usize);
    }
    let v = Scalar(value_at(pool, p));
    listed(told, pool, j, v)
}

/// Is the value at place p in every allowed list; `allowed` are the numbers of kind 1.
pub fn allows_at(
    index: &[u64],
    told: &[u64],
    pool: &[u8],
    marks: &[u8],
    n: usize,
    allowed: &[u64],
    p: usize,
) -> bool
    requires indexed { Indexed told.now pool.now index.now × (p < 2 ^ 34) }
    requires low { Low marks.now n × KindSet (kinds_in told.now) 1 marks.now n allowed.now }
    ensures { result ≡ is_allowed lined (allowed_by (kinds_in told.now) (starts_in told.now)
        (counts_in told.now)
        pool.now marks.now n) (payload.key (value_at pool.now p)) }
{
    let at = set_of(index, p);
    if (p + 4096 < index.len() / 2) & (0 < at) {
        return within(allowed, 0, index, at);
    }
    let v = Scalar(value_at(pool, p));
    allows(told, pool, marks, n, v)
}

/// Is the value at place p a disallowed one; `disallowed` are the numbers of kind 2.
pub fn disallows_at(
    index: &[u64],
    told: &[u64],
    pool: &[u8],
    marks: &[u8],
    n: usize,
    disallowed: &[u64],
    p: usize,
) -> bool
    requires indexed { Indexed told.now pool.now index.now × (p < 2 ^ 34) }
    requires low { Low marks.now n × KindSet (kinds_in told.now) 2 marks.now n disallowed.now }
    ensures { result ≡ contains lined (payload.key (value_at pool.now p)) (disallowed_by (kinds_in told.entry.now) (starts_in told.now)
        (counts_in told.now) pool.now marks.now n) }
{
    let at = set_of(index, p);
    if (p + 4096 < index.len() / 2) & (0 < at) {
        return meets(disallowed, 0, index, at);
    }
    let v = Scalar(value_at(pool, p));
    disallows(told, pool, marks, n, v)
}

/// A column's numbers in an array of their own, for a walk over them while its row is written anew.
pub fn copied(marks: &[u8], n: usize) -> [u8; 128]
    requires { (n ≤ length marks.now) × (n ≤ 128) }
    ensures { (i : ℕ) → i < n → get_or result i 0 ≡ get_or marks.now i 0 }
{
    let mut r = [0u8; CONJUNCTS];
    r[..n].copy_from_slice(&marks[..n]);
    r
}

// ---- adding

fn push(marks: &mut [u8], mut c: ColumnConstraints, j: u8) -> ColumnConstraints
    requires { c.len < length marks.old }
    ensures marks_after { marks.new ≡ set marks.old c.len j }
    ensures value { result ≡ longer c }
{
    let n = c.len;
    marks[n] = j;
    c.len = n + 1;
    c
}

/// The literal of conjunct j as an excluded value, if it is a new one; to an impossible column too.
pub fn insert_excluded(
    told: &[u64],
    marks: &mut [u8],
    c: ColumnConstraints,
    j: u8,
) -> ColumnConstraints
    requires { Fine (length marks.old) marks.old c.len × (j < length marks.old) × (get_or (kinds_in told.now) j 0 ≡ 0) }
    ensures result_after { (t : Conjuncts) → t.kinds ≡ kinds_in told.now → t.values ≡ values_in told.now →
        column_of t (numbered marks.new result) ≡ q.put lined (q.Exclude (literal_at (values_in told.now)
        j)) (column_of t (numbered marks.old c)) }
    ensures fine { Fine (length marks.old) marks.new result.len }
{
    let v = literal_at(told, j);
    if excludes(told, marks, c.len, v) {
        return c;
    }
    push(marks, c, j)
}

pub fn add_excluded(
    told: &[u64],
    marks: &mut [u8],
    c: ColumnConstraints,
    j: u8,
) -> ColumnConstraints
    requires { Fine (length marks.old) marks.old c.len × (j < length marks.old) × (get_or (kinds_in told.now) j 0 ≡ 0) }
    ensures result_after { (t : Conjuncts) → t.kinds ≡ kinds_in told.now → t.values ≡ values_in told.now →
        column_of t (numbered marks.new result) ≡ q.add_excluded lined (literal_at (values_in told.now) j)
        (column_of t (numbered marks.old c)) }
    ensures fine { Fine (length marks.old) marks.new result.len }
{
    if c.unsat {
        return c;
    }
    insert_excluded(told, marks, c, j)
}

/// The list of conjunct j, allowed or disallowed by its kind; to an impossible column too. No list is read.
pub fn insert_list(marks: &mut [u8], c: ColumnConstraints, j: u8) -> ColumnConstraints
    requires { Fine (length marks.old) marks.old c.len × (j < length marks.old) }
    ensures result_after { (t : Conjuncts) → get_or t.kinds j 0 ≡ 1 →
        column_of t (numbered marks.new result) ≡ q.put lined (q.Allow (values_of t.starts t.counts t.pool j)) (column_of t (numbered marks.old c)) }
    ensures result_after_2 { (t : Conjuncts) → get_or t.kinds j 0 ≡ 2 →
        column_of t (numbered marks.new result) ≡ q.put lined (q.Disallow false (values_of t.starts t.counts t.pool j))
        (column_of t (numbered marks.old c)) }
    ensures fine { Fine (length marks.old) marks.new result.len }
{
    if has_mark(marks, c.len, j) {
        return c;
    }
    push(marks, c, j)
}

pub fn add_allowed(marks: &mut [u8], c: ColumnConstraints, j: u8) -> ColumnConstraints
    requires { Fine (length marks.old) marks.old c.len × (j < length marks.old) }
    ensures result_after { (t : Conjuncts) → get_or t.kinds j 0 ≡ 1 →
        column_of t (numbered marks.new result) ≡ q.add_allowed lined (values_of t.starts t.counts t.pool j) (column_of t (numbered marks.old c)) }
    ensures fine { Fine (length marks.old) marks.new result.len }
{
    if c.unsat {
        return c;
    }
    insert_list(marks, c, j)
}

/// `strict`: the negated is_in drops nulls, so that a value of it counts as a value constraint.
pub fn add_disallowed(
    told: &[u64],
    marks: &mut [u8],
    c: ColumnConstraints,
    j: u8,
    strict: bool,
) -> ColumnConstraints
    requires { Fine (length marks.old) marks.old c.len × (j < length marks.old) }
    ensures result_after { (t : Conjuncts) → t.counts ≡ counts_in told.now → get_or t.kinds j 0 ≡ 2 →
        column_of t (numbered marks.new result) ≡ q.add_disallowed lined strict (values_of t.starts t.counts t.pool j) (column_of t (numbered marks.old c)) }
    ensures fine { Fine (length marks.old) marks.new result.len }
{
    if c.unsat {
        return c;
    }
    let mut d = insert_list(marks, c, j);
    d.strict = d.strict | (strict & (0 < count_at(told, j as usize)));
    d
}

/// Is some conjunct of kind k among the numbers.
pub fn has_kind(told: &[u64], marks: &[u8], n: usize, k: u64) -> bool
    ensures { result ≡ any_of_kind (kinds_in told.now) k marks.now n }
{
    for i in 0..n {
        let j = byte(marks, i);
        if kind_at(told, j as usize) == k {
            return true;
        }
    }
    false
}
