// Lists share the pool, so that 4,096 of them could have its 8,192 values looked at 33,000,000 times. Where many may be,
// a table has how many of the first values of the pool are outside a type, and a list asks for two of its entries.
ghost use Rattle.std.specs.Prelude.{◌≡◌, cond, ◌/◌, ◌≤◌, ◌<◌, length};
ghost use Rattle.records.specs.Shape.{in_type_in};
ghost use Rattle.record_check.specs.Outside.{Outside};

use records::bytes::value_in;
use value_types::in_type;

// 1 for a value outside the type.
fn miss(text: u32, ty: u8, v: u64) -> u16
    ensures value { result ≡ cond (in_type_in text ty v) 0 1 }
    ensures upper_bound { result ≤ 1 }
{
    if in_type(text, ty, v) { 0 } else { 1 }
}

/// The counts of the values outside the type.
pub fn fill_outside(text: u32, p: &[u8], ty: u8, counts: &mut [u16])
    requires p_len_bound { length p.now / 8 ≤ 8192 }
    requires p_in_bounds { length p.now / 8 < length counts.old }
    ensures { Outside text p.now ty counts.new }
{
    let n = p.len() / 8;
    let mut d: u16 = 0;
    for k in 0..n {
        let v = value_in(p, k);
        counts[k] = d;
        d = d + miss(text, ty, v);
    }
    counts[n] = d;
}
