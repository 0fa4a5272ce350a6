// The truths of 64 rows at once: two words, a bit a row. One word says of which rows a record is true, the other of which it
// is unknown. Logic on them is a few operations on words; a comparison of 64 values is one loop.
#![tactic(auto)]

ghost use Rattle.std.specs.Prelude.{◌≡◌, cond, ℕ, ◌+◌, ◌^◌, ◌≤◌, ◌<◌, ltb, eqb, length, get_or, ℤ};
ghost use Rattle.std.specs.Int.Bits.{bit_or};
ghost use Rattle.three_valued.specs.declared.logic.Truth.{Truth};
ghost use Rattle.three_valued.specs.Logic.{and3, or3, xor3, not3};
ghost use Rattle.truth.specs.Comparison.{Eq, Lt};
ghost use Rattle.truth.specs.Evaluate.{comparing};
ghost use Rattle.std.proofs.Math.Option.{Option, some};
ghost use Rattle.truth.specs.Halves.{key, bias_of};
ghost use Rattle.masks.specs.Masks.{inverse, mask_to, Tells, Shown};

pub mod block;
pub mod reach;

/// Bit i of `truths`: true of row i. Bit i of `unknowns`: unknown of row i. Neither: false.
#[derive(Clone, Copy)]
pub struct Masks {
    pub truths: u64,
    pub unknowns: u64,
}

pub fn inverted(x: u64) -> u64
    ensures { result ≡ inverse x }
{
    x ^ 18446744073709551615
}

pub fn and_masks(x: Masks, y: Masks) -> Masks
    ensures { (rows : ℕ) (f g : ℕ → Truth) → Tells rows x f → Tells rows y g → Tells rows result (λ i. and3 (f i) (g i)) }
{
    let t = x.truths & y.truths;
    let some = (x.truths | x.unknowns) & (y.truths | y.unknowns);
    Masks {
        truths: t,
        unknowns: some & inverted(t),
    }
}

pub fn or_masks(x: Masks, y: Masks) -> Masks
    ensures { (rows : ℕ) (f g : ℕ → Truth) → Tells rows x f → Tells rows y g → Tells rows result (λ i. or3 (f i) (g i)) }
{
    let t = x.truths | y.truths;
    let some = x.unknowns | y.unknowns;
    Masks {
        truths: t,
        unknowns: some & inverted(t),
    }
}

pub fn xor_masks(x: Masks, y: Masks) -> Masks
    ensures { (rows : ℕ) (f g : ℕ → Truth) → Tells rows x f → Tells rows y g → Tells rows result (λ i. xor3 (f i) (g i)) }
{
    let u = x.unknowns | y.unknowns;
    let one = x.truths ^ y.truths;
    Masks {
        truths: one & inverted(u),
        unknowns: u,
    }
}

pub fn not_masks(x: Masks) -> Masks
    ensures { (rows : ℕ) (f : ℕ → Truth) → Tells rows x f → Tells rows result (λ i. not3 (f i)) }
{
    let some = x.truths | x.unknowns;
    Masks {
        truths: inverted(some),
        unknowns: x.unknowns,
    }
}

pub fn with_bit(m: u64, i: u32, b: bool) -> u64
    requires { i < 64 }
    ensures { result ≡ cond b (bit_or m (2 ^ i)) m }
{
    if b {
        return m | (1 << i);
    }
    m
}

/// The same of equality.
pub fn mask_equal(keys: &[u64], at: usize, w: u64) -> u64
    requires { at + 64 ≤ length keys.now }
    ensures { result ≡ mask_to (λ (i : ℕ). eqb (get_or keys.now (at + i) 0) w) 64 }
{
    let mut m: u64 = 0;
    for i in 0..64 {
        m = with_bit(m, i as u32, keys[at + i] == w);
    }
    m
}

/// Eq of a column and a literal.
pub fn equal_to(keys: &[u64], at: usize, nulls: u64, w: u64) -> Masks
    requires { at + 64 ≤ length keys.now }
    ensures { (rows : ℕ) (value : ℕ → Option ℤ) (b : ℕ) → Shown rows keys.now at nulls value → b < 2 ^ 64
        → w ≡ bias_of b
        → Tells rows result (λ i. comparing Eq (value i) (some (key b))) }
{
    let m = mask_equal(keys, at, w);
    Masks {
        truths: m & inverted(nulls),
        unknowns: nulls,
    }
}

/// Of which of 64 keys, from the one numbered `at` on, the key is below that from `other` on.
fn mask_less_pairs(keys: &[u64], at: usize, other: usize) -> u64
    requires at_in_bounds { at + 64 ≤ length keys.now }
    requires other_in_bounds { other + 64 ≤ length keys.now }
    ensures { result ≡ mask_to (λ (i : ℕ). ltb (get_or keys.now (at + i) 0)
        (get_or keys.now (other + i) 0)) 64 }
{
    let mut m: u64 = 0;
    for i in 0..64 {
        m = with_bit(m, i as u32, keys[at + i] < keys[other + i]);
    }
    m
}

/// Lt of two columns: where their keys begin, and the words of their nulls.
pub fn less_columns(keys: &[u64], at: usize, nulls: u64, other: usize, others: u64) -> Masks
    requires at_in_bounds { at + 64 ≤ length keys.now }
    requires other_in_bounds { other + 64 ≤ length keys.now }
    ensures { (rows : ℕ) (value second : ℕ → Option ℤ) → Shown rows keys.now at nulls value
        → Shown rows keys.now other others second → Tells rows result (λ i. comparing Lt (value i) (second i)) }
{
    let m = mask_less_pairs(keys, at, other);
    let either = nulls | others;
    Masks {
        truths: m & inverted(either),
        unknowns: either,
    }
}

/// Of which of 64 keys, from the one numbered `at` on, the key is equal to that from `other` on.
pub fn mask_equal_pairs(keys: &[u64], at: usize, other: usize) -> u64
    requires at_in_bounds { at + 64 ≤ length keys.now }
    requires other_in_bounds { other + 64 ≤ length keys.now }
    ensures { result ≡ mask_to (λ (i : ℕ). eqb (get_or keys.now (at + i) 0)
        (get_or keys.now (other + i) 0)) 64 }
{
    let mut m: u64 = 0;
    for i in 0..64 {
        m = with_bit(m, i as u32, keys[at + i] == keys[other + i]);
    }
    m
}

/// Eq of two columns: where their keys begin, and the words of their nulls.
pub fn equal_columns(keys: &[u64], at: usize, nulls: u64, other: usize, others: u64) -> Masks
    requires at_in_bounds { at + 64 ≤ length keys.now }
    requires other_in_bounds { other + 64 ≤ length keys.now }
    ensures { (rows : ℕ) (value second : ℕ → Option ℤ) → Shown rows keys.now at nulls value
        → Shown rows keys.now other others second → Tells rows result (λ i. comparing Eq (value i) (second i)) }
{
    let m = mask_equal_pairs(keys, at, other);
    let u = nulls | others;
    Masks {
        truths: m & inverted(u),
        unknowns: u,
    }
}
