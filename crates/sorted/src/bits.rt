// Sets of places as bits, 64 to a word, several in one slice: a set is told by the place of its first word.
ghost use Rattle.std.specs.Prelude.{◌+◌, ◌/◌, ◌<◌, ◌≡◌, length};
ghost use Rattle.sorted.specs.BitSets.{member, Put, Meets, Within};

/// Puts `place` into the set at word `at`.
pub fn put(sets: &mut [u64], at: usize, place: usize)
    requires { at + place / 64 < length sets.old }
    ensures { Put sets.old sets.new at place }
{
    let q = at + place / 64;
    sets[q] = sets[q] | (1 << (place % 64));
}

/// Whether `place` is in the set at word `at`.
pub fn has(sets: &[u64], at: usize, place: usize) -> bool
    requires { at + place / 64 < length sets.now }
    ensures { result ≡ member sets.now at place }
{
    let x = sets[at + place / 64];
    (x >> (place % 64)) % 2 == 1
}

/// Whether the two sets of 128 places, one at word `at`, one at word `from` of `other`, have a place in common.
pub fn meets(sets: &[u64], at: usize, other: &[u64], from: usize) -> bool
    requires { (at + 1 < length sets.now) × (from + 1 < length other.now) }
    ensures { Meets sets.now at other.now from result }
{
    let low = sets[at] & other[from];
    let high = sets[at + 1] & other[from + 1];
    (low | high) != 0
}

/// Whether every place of the set at `at` is in the one at `from` of `other`, each of 128 places.
pub fn within(sets: &[u64], at: usize, other: &[u64], from: usize) -> bool
    requires { (at + 1 < length sets.now) × (from + 1 < length other.now) }
    ensures { Within sets.now at other.now from result }
{
    let low = sets[at] & other[from];
    let high = sets[at + 1] & other[from + 1];
    (low == sets[at]) & (high == sets[at + 1])
}
