// What guessing goes by stands behind the order of the pool. Nothing is promised of it but that the order stays.
ghost use Rattle.std.specs.Prelude.{◌≡◌, ℕ, ◌+◌, ◌*◌, ◌≤◌, ◌<◌, length, get_or};

// A level of the tree, of so many words, a power of 2.
fn plant_level(order: &mut [u64], from: usize, tree: usize, size: usize)
    requires from_in_bounds { (from + 8192 ≤ length order.old) × (tree + 1024 ≤ length order.old) }
    requires size_nonzero { (0 < size) × (size ≤ 512) }
    ensures { (q : ℕ) → q < tree → get_or order.new q 0 ≡ get_or order.old q 0 }
{
    let half = 4096 / size % 8192;
    let mut word = half;
    for p in 0..size {
        order[tree + size + p] = order[from + word % 8192];
        word = (word + 2 * half) % 16384;
    }
}

// The tree of every eighth of the 8,192 words from `from` on: the middle one at 1, and below the one at p, at 2 p and 2 p + 1,
// the middle ones of those before and behind it.
fn plant_tree(order: &mut [u64], from: usize, tree: usize)
    requires { (from + 8192 ≤ length order.old) × (tree + 1024 ≤ length order.old) }
    ensures { (q : ℕ) → q < tree → get_or order.new q 0 ≡ get_or order.old q 0 }
{
    for level in 0u32..10 {
        plant_level(order, from, tree, 1 << level);
    }
}

// By how many bits a seat is the number of its group, of which there are at most 4,096: that of two keys, or, where there
// are fewer keys, of one, and at last of a key in a part of the pool.
fn group_shift(k: usize) -> u64
    requires { k ≤ 8192 }
{
    if k < 2 {
        return 1;
    }
    (2 * k - 1).ilog2() as u64 + 1
}

fn write_shift(order: &mut [u64], shift: u64)
    requires { 19464 ≤ length order.old }
    ensures { (q : ℕ) → q < 16386 → get_or order.new q 0 ≡ get_or order.old q 0 }
{
    order[16386] = shift;
}

// How long a search among n seats takes, one of three bits or none, so that the bits of many say which there are.
fn size_bits(n: usize) -> u64
    ensures { result ≤ 7 }
{
    if n < 4 {
        return 0;
    }
    if n < 16 {
        return 1;
    }
    if n < 256 { 2 } else { 4 }
}

// A group of the seats from `from` up to, not including, `to`: the seat before them, and above it how many they are.
fn group_entry(from: usize, to: usize) -> u64 {
    if from == 0 {
        return 8192 * size_bits(to);
    }
    if to < from {
        return 0;
    }
    (from - 1) as u64 % 8192 + 8192 * size_bits(to - from)
}

// Four groups to a word.
fn note_group(order: &mut [u64], g: usize, e: u64)
    requires in_bounds { 19464 ≤ length order.old }
    requires g_bound { g < 4096 }
    ensures { (q : ℕ) → q < 16386 → get_or order.new q 0 ≡ get_or order.old q 0 }
{
    let at = 16388 + g / 4;
    if g % 4 == 0 {
        order[at] = e;
    } else {
        order[at] = order[at] | (e << (16 * (g % 4)));
    }
}

// The 8,192 seats and the 4,096 groups in one walk: in each turn a seat more of group g, or the end of that group.
fn note_groups(order: &mut [u64], shift: u64)
    requires { 19464 ≤ length order.old }
    ensures { (q : ℕ) → q < 16386 → get_or order.new q 0 ≡ get_or order.old q 0 }
{
    let mut from: usize = 0;
    let mut p: usize = 0;
    let mut g: usize = 0;
    for _turn in 0usize..12288 {
        let own = order[8192 + p % 8192] >> (shift % 64);
        if (p < 8192) & (own <= g as u64) {
            p += 1;
        } else {
            note_group(order, g % 4096, group_entry(from, p));
            from = p;
            g += 1;
        }
    }
}

/// Where the table of numbers has a key's: its halves are put together and multiplied by the golden part of 2^32, so that keys at equal
/// steps lie apart.
pub fn slot_of(w: u64) -> usize
    ensures { result < 8192 }
{
    let folded = (w ^ (w >> 32)) % 4294967296;
    (folded * 2654435769 / 524288 % 8192) as usize
}

// A key's number into the table, if no other has its place.
fn note_key(order: &mut [u64], r: usize)
    requires in_bounds { 21512 ≤ length order.old }
    requires r_bound { r < 8192 }
    ensures { (q : ℕ) → q < 16386 → get_or order.new q 0 ≡ get_or order.old q 0 }
{
    let slot = slot_of(order[r]);
    let at = 19464 + slot / 4;
    let lane = 16 * (slot % 4) as u64;
    if (order[at] >> lane) % 65536 == 0 {
        order[at] = order[at] | ((r as u64) << lane);
    }
}

fn note_keys(order: &mut [u64], k: usize)
    requires k_bound { k ≤ 8192 }
    requires in_bounds { 21512 ≤ length order.old }
    ensures { (q : ℕ) → q < 16386 → get_or order.new q 0 ≡ get_or order.old q 0 }
{
    for r in 0..k {
        note_key(order, r);
    }
}

/// What guessing goes by, behind an order of k keys: trees of the keys and of the seats, the groups of seats, and a table of the keys'
/// numbers.
pub fn add_guides(order: &mut [u64], k: usize)
    requires k_bound { k ≤ 8192 }
    requires in_bounds { 21512 ≤ length order.old }
    ensures { (q : ℕ) → q < 16386 → get_or order.new q 0 ≡ get_or order.old q 0 }
{
    plant_tree(order, 0, 17416);
    plant_tree(order, 8192, 18440);
    let shift = group_shift(k);
    write_shift(order, shift);
    note_groups(order, shift);
    note_keys(order, k);
}
