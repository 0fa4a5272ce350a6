// The inverted index of the lists is made once, for a screen whose lists travel far along equalities: for each place of the
// pool where a list has a value, the set of the conjuncts whose lists have that value. Then all lists of a column are asked for a
// value at once (crate `column_sets`), and not one after the other. It begins with a word for each place, where the set of its
// value begins, or 0; the sets follow, two words each, in the order of the values. A value without a set is looked for in the
// lists themselves, so of the values gathered nothing is proved but that they rise: which they are is a matter of time.
ghost use Rattle.std.specs.Prelude.{◌≡◌, List, ℕ, ◌+◌, ◌*◌, ◌^◌, ◌<◌, ◌≤◌, length, get_or};
ghost use Rattle.sorted.specs.Rising.{Rising, Found};
ghost use Rattle.column_constraints.specs.Abstraction.{starts_in, counts_in};
ghost use Rattle.column_sets.specs.Index.{Indexed, Sets, ValuePut};

use column_sets::told::{count_at, start_at};
use limits::{RECORDS, VALUES};
use pool_guides::guides::slot_of;
use records::bytes::value_at;
use sorted::bits::put;
use sorted::rising::{find, sorted_set};

/// A place of the pool has the place of its value's set behind all of them; a set has two words, a bit a conjunct.
pub const INDEX: usize = 3 * VALUES;

/// The same for the ranks of a screen with symbols before its pool, and for the values and the literals of both.
pub const WIDE_INDEX: usize = 2 * VALUES + 2 * (VALUES + RECORDS);

// ---- the values

// Whether place p came before; `seen` covers some places.
fn came_before(seen: &mut [u64], p: usize) -> bool {
    if p < seen.len() {
        let before = seen[p];
        seen[p] = 1;
        return before != 0;
    }
    false
}

fn gather_value(pool: &[u8], p: usize, values: &mut [u64], seen: &mut [u64], n: usize) -> usize
    requires { (p < 8589934592) × (n ≤ length values.old) }
    ensures { result ≤ length values.new }
{
    if values.len() <= n {
        return n;
    }
    if came_before(seen, p) {
        return n;
    }
    values[n] = value_at(pool, p);
    n + 1
}

fn gather_list(
    pool: &[u8],
    start: usize,
    count: usize,
    values: &mut [u64],
    seen: &mut [u64],
    n: usize,
) -> usize
    requires { (start < 4294967296) × (count < 4294967296) × (n ≤ length values.old) }
    ensures { result ≤ length values.new }
{
    let mut k = n;
    for i in 0..count {
        k = gather_value(pool, start + i, values, seen, k);
    }
    k
}

// The values of the lists, each place's once where `seen` covers it, as many as there is room for; how many.
fn gather(told: &[u64], pool: &[u8], values: &mut [u64], seen: &mut [u64]) -> usize
    ensures { result ≤ length values.new }
{
    let mut n: usize = 0;
    for j in 0..128 {
        let start = start_at(told, j) as usize;
        let count = count_at(told, j) as usize;
        n = gather_list(pool, start, count, values, seen, n);
    }
    n
}

// ---- finding a value's set

fn write_hint(hints: &mut [u64], slot: usize, r: usize) {
    if slot < hints.len() {
        hints[slot] = r as u64;
    }
}

// A table of guesses: where a value may stand among the rising ones.
fn write_hints(sorted: &[u64], k: usize, hints: &mut [u64])
    requires { k ≤ length sorted.now }
{
    for r in 0..k {
        write_hint(hints, slot_of(sorted[r]), r);
    }
}

fn hint_of(hints: &[u64], slot: usize) -> usize {
    if slot < hints.len() {
        return hints[slot] as usize;
    }
    0
}

fn find_by_hint(sorted: &[u64], k: usize, hints: &[u64], v: u64) -> usize
    requires { Rising sorted.now 0 k × (k ≤ length sorted.now) }
    ensures { Found sorted.now k v result }
{
    let guess = hint_of(hints, slot_of(v));
    if guess < k {
        if sorted[guess] == v {
            return guess;
        }
    }
    find(sorted, k, v)
}

// ---- the sets: set r begins at word m + 2 * r

// Conjunct j into set r, which is that of place p's value.
fn put_value(index: &mut [u64], m: usize, p: usize, r: usize, j: usize)
    requires { (m + 2 * r + 1 < length index.old) × (length index.old ≤ 40960) × (j < 128) }
    ensures { ValuePut index.old index.new m p r j }
{
    let at = m + 2 * r;
    put(index, at, j);
    if m <= p {
        return;
    }
    index[p] = at as u64;
}

// Conjunct j into the set of the value at place p, if it has one.
fn place_value(
    index: &mut [u64],
    m: usize,
    sorted: &[u64],
    k: usize,
    hints: &[u64],
    pool: &[u8],
    p: usize,
    j: usize,
)
    requires rising { Rising sorted.now 0 k × (k ≤ length sorted.now) }
    requires k_in_bounds { (m + 2 * k ≤ length index.old) × (length index.old ≤ 40960) × (j < 128) × (p < 2 ^ 34) }
    ensures { (starts : List ℕ) (counts : List ℕ) (s : ℕ) (i : ℕ) → p ≡ s + i →
        Sets starts counts pool.now sorted.now index.old k m j s i →
        Sets starts counts pool.now sorted.now index.new k m j s (i + 1) }
{
    let v = value_at(pool, p);
    let r = find_by_hint(sorted, k, hints, v);
    if k <= r {
        return;
    }
    put_value(index, m, p, r, j);
}

// Conjunct j into the sets of its list's values.
fn put_list(
    index: &mut [u64],
    m: usize,
    sorted: &[u64],
    k: usize,
    hints: &[u64],
    pool: &[u8],
    start: usize,
    count: usize,
    j: usize,
)
    requires rising { Rising sorted.now 0 k × (k ≤ length sorted.now) }
    requires k_in_bounds { (m + 2 * k ≤ length index.old) × (length index.old ≤ 40960) × (j < 128)
        × (start < 4294967296) × (count < 4294967296) }
    ensures { (starts : List ℕ) (counts : List ℕ) →
        Sets starts counts pool.now sorted.now index.old k m j start 0 →
        Sets starts counts pool.now sorted.now index.new k m j start count }
{
    for i in 0..count {
        place_value(index, m, sorted, k, hints, pool, start + i, j);
    }
}

fn put_lists(
    told: &[u64],
    index: &mut [u64],
    m: usize,
    sorted: &[u64],
    k: usize,
    hints: &[u64],
    pool: &[u8],
)
    requires rising { Rising sorted.now 0 k × (k ≤ length sorted.now) }
    requires k_in_bounds { (m + 2 * k ≤ length index.old) × (length index.old ≤ 40960) }
    requires by_index { (q : ℕ) → get_or index.old q 0 ≡ 0 }
    ensures { Sets (starts_in told.now) (counts_in told.now) pool.now
        sorted.now index.new k m 128 0 0 }
{
    for j in 0..128 {
        let start = start_at(told, j) as usize;
        let count = count_at(told, j) as usize;
        put_list(index, m, sorted, k, hints, pool, start, count, j);
    }
}

/// The index of the lists of 128 conjuncts in a pool of 8,192 values; `index` is 0 everywhere.
pub fn make_index(told: &[u64], pool: &[u8], index: &mut [u64])
    requires by_index { ((j : ℕ) → j < 128 → get_or (starts_in told.now) j 0 + get_or (counts_in told.now) j 0 ≤ 8192)
        × (length index.old ≡ 24576) }
    requires by_index_2 { (q : ℕ) → get_or index.old q 0 ≡ 0 }
    ensures { Indexed told.now pool.now index.new }
{
    let mut values = [0u64; VALUES];
    let mut scratch = [0u64; VALUES];
    let n = gather(told, pool, &mut values, &mut scratch);
    let k = sorted_set(&mut values, n, &mut scratch);
    write_hints(&values, k, &mut scratch);
    put_lists(told, index, VALUES, &values, k, &scratch, pool);
}

/// The same in a pool of 16,384, by lent tables for the values, at most 12,288, which are overwritten.
pub fn make_wide_index(
    told: &[u64],
    pool: &[u8],
    index: &mut [u64],
    values: &mut [u64],
    scratch: &mut [u64],
)
    requires index_len { (length index.old ≡ 40960) × (length values.old ≤ 12288) × (length values.old ≤ length scratch.old) }
    requires by_index { (q : ℕ) → get_or index.old q 0 ≡ 0 }
    ensures { Indexed told.now pool.now index.new }
{
    scratch.fill(0);
    let n = gather(told, pool, values, scratch);
    let k = sorted_set(values, n, scratch);
    write_hints(values, k, scratch);
    put_lists(told, index, 16384, values, k, scratch, pool);
}
