//! Whether a screen has symbols (02, 2.10), by its bytes alone. One that has none is checked, tested and merged as ever,
//! whatever text pool is lent.
#![tactic(auto)]

ghost use Rattle.std.specs.Prelude.{◌≡◌, false, not, ℕ, ◌+◌, ◌*◌, ◌≤◌, eqb, length, get_or};
ghost use Rattle.records.specs.Bytes.{all};
ghost use Rattle.symbol_screens.proofs.NumbersChecked.{NoText};

fn no_text_column(t: &[u8]) -> bool
    ensures { result ≡ all (λ (k : ℕ). not (eqb (get_or t.now k 0) 4)) (length t.now) }
{
    t.iter().all(|ty| *ty != 4)
}

// Byte 2 of a record is its type, 0 where it has none.
fn no_text_record(rs: &[u8], used: usize) -> bool
    requires used_in_bounds { 16 * used ≤ length rs.now }
    requires used_bound { used ≤ 4096 }
    ensures { result ≡ all (λ (k : ℕ). not (eqb (get_or rs.now (16 * k + 2) 0) 4)) used }
{
    (0..used).all(|k| rs[16 * k + 2] != 4)
}

/// Never false where a column or a used record is a Text. It may be true of a screen that checking refuses.
pub fn has_symbols(t: &[u8], rs: &[u8], used: u64) -> bool
    ensures { result ≡ false → NoText t.now rs.now used }
{
    if 4096 < used {
        return true;
    }
    if ((rs.len() / 16) as u64) < used {
        return true;
    }
    if !no_text_column(t) {
        return true;
    }
    !no_text_record(rs, used as usize)
}
