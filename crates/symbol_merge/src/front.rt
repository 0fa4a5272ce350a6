// The fronts of two lent slices.
ghost use Rattle.std.specs.Prelude.{◌≡◌, ℕ, ◌*◌, ◌≤◌, length, get_or};
ghost use Rattle.column_constraints.specs.Abstraction.{kinds_in, values_in};
ghost use Rattle.symbol_merge.specs.Fronts.{fronted};

/// The first `size` bytes of the two are exchanged.
pub fn exchange_front(rs: &mut [u8], src: &mut [u8], size: usize)
    requires { (size ≤ length rs.old) × (size ≤ length src.old) }
    ensures rs_after { rs.new ≡ fronted size src.old rs.old }
    ensures src_after { src.new ≡ fronted size rs.old src.old }
{
    for i in 0..size {
        let b = rs[i];
        rs[i] = src[i];
        src[i] = b;
    }
}

/// The first `size` bytes of `src` stand in front of `rs` then.
pub fn put_front(rs: &mut [u8], src: &[u8], size: usize)
    requires { (size ≤ length rs.old) × (size ≤ length src.now) }
    ensures { rs.new ≡ fronted size src.now rs.old }
{
    for i in 0..size {
        rs[i] = src[i];
    }
}

/// The kinds of `told` in a table with the literals that are written; behind the first n conjuncts the two have the same.
pub fn take_kinds(told: &[u64], n: usize, bits: &mut [u64])
    requires n_in_bounds { (2 * n ≤ length told.now) × (length bits.old ≡ length told.now) }
    requires by_index { (i : ℕ) → 2 * n ≤ i → get_or bits.old i 0 ≡ get_or told.now i 0 }
    ensures bits_after { kinds_in bits.new ≡ kinds_in told.now }
    ensures bits_unchanged { values_in bits.new ≡ values_in bits.old }
{
    for j in 0..n {
        bits[2 * j + 1] = told[2 * j + 1];
    }
}
