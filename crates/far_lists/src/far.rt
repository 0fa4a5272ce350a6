// Whether a screen's lists travel so far along equalities that an index of them is worth its making. The answer changes no
// result, only the time; it is `false` where a list ends behind the places that an index covers.
ghost use Rattle.std.specs.Prelude.{◌≡◌, true, ℕ, ◌+◌, ◌<◌, ◌≤◌, length, get_or};
ghost use Rattle.column_constraints.specs.Abstraction.{starts_in, counts_in};

use column_sets::told::{count_at, start_at};
use column_table::fields::bump;
use read_operands::operands::Conjunct;
use reading::classify::classify_by_record;
use records::record::Node;

fn is_equality(k: Conjunct) -> bool {
    match k {
        Conjunct::Equality(_, _) => true,
        _ => false,
    }
}

fn equality_count(rs: &[u8], nodes: &[u32], n: usize) -> usize
    requires { (n ≤ length nodes.now) × (n ≤ 128) }
    ensures { result ≤ n }
{
    let mut count: usize = 0;
    for i in 0..n {
        let k = classify_by_record(rs, Node(nodes[i]));
        count = bump(!is_equality(k), count);
    }
    count
}

// The lists' number times their values: how much looking for values in lists may cost for one column. 0 if a list ends behind
// the last of the places that an index covers.
fn list_work(told: &[u64], places: usize) -> usize
    requires { places ≤ 16384 }
    ensures j_bound { 0 < result → (j : ℕ) → j < 128 → get_or (starts_in told.now) j 0
        + get_or (counts_in told.now) j 0 ≤ places }
    ensures upper_bound { result ≤ 268435456 }
{
    let mut lists: usize = 0;
    let mut total: usize = 0;
    for j in 0..128 {
        let start = start_at(told, j) as usize;
        let count = count_at(told, j) as usize;
        if places < start + count {
            return 0;
        }
        lists = bump(count == 0, lists);
        total = total + count;
    }
    lists * total
}

// How many values the lists of the first n conjuncts have.
fn value_count(told: &[u64], n: usize) -> usize
    requires { n ≤ 128 }
{
    let mut total: usize = 0;
    for j in 0..n {
        total = total + count_at(told, j) as usize;
    }
    total
}

/// Most screens have few values in lists, and that is seen at once. Where the lists' work times the equalities is 40,000, looking
/// for values in lists takes about as long as making the index.
pub fn travels_far(rs: &[u8], nodes: &[u32], n: usize, told: &[u64]) -> bool
    requires { (n ≤ length nodes.now) × (n ≤ 128) }
    ensures { result ≡ true → (j : ℕ) → j < 128 → get_or (starts_in told.now) j 0
        + get_or (counts_in told.now) j 0 ≤ 8192 }
{
    if value_count(told, n) <= 24 {
        return false;
    }
    let work = list_work(told, 8192);
    if work == 0 {
        return false;
    }
    40000 < work * equality_count(rs, nodes, n)
}

/// The same for an index of 16,384 places.
pub fn travels_wide(rs: &[u8], nodes: &[u32], n: usize, told: &[u64]) -> bool
    requires { (n ≤ length nodes.now) × (n ≤ 128) }
{
    if value_count(told, n) <= 24 {
        return false;
    }
    40000 < list_work(told, 16384) * equality_count(rs, nodes, n)
}
