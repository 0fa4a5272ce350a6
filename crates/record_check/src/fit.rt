// Number 5 of a list: it lies in the pool and its values are of its type.
ghost use Rattle.std.specs.Prelude.{◌≡◌, ◌+◌, ◌/◌, ◌≤◌, length};
ghost use Rattle.record_check.specs.Fit.{all_fit_in, list_ok_in};
ghost use Rattle.record_check.specs.Outside.{CountsOf, Counts};

use records::bytes::value_in;
use value_types::in_type;

// Values that the pool holds.
fn all_fit(text: u32, p: &[u8], ty: u8, start: u32, count: u32) -> bool
    requires { start + count ≤ length p.now / 8 }
    ensures { result ≡ all_fit_in text p.now ty start count }
{
    for k in 0..count {
        let v = value_in(p, (start as usize) + (k as usize));
        if !in_type(text, ty, v) {
            return false;
        }
    }
    true
}

// The same by the counts of the values outside the type, where there are any.
fn counts_fit(text: u32, p: &[u8], counts: &[u16], ty: u8, start: u32, count: u32) -> bool
    requires count_in_bounds { start + count ≤ length p.now / 8 }
    requires counts_of { CountsOf text p.now ty counts.now }
    ensures { result ≡ all_fit_in text p.now ty start count }
{
    if counts.len() == 0 {
        return all_fit(text, p, ty, start, count);
    }
    let from = start as usize;
    let end = from + (count as usize);
    counts[end] == counts[from]
}

// Any 64 bits are an Int, so such a list needs no look at its values. `days`, `truths` and `symbols` have the counts of the
// pool's values outside the three other types, or are empty.
pub fn list_ok(
    text: u32,
    p: &[u8],
    days: &[u16],
    truths: &[u16],
    symbols: &[u16],
    ty: u8,
    start: u32,
    count: u32,
) -> bool
    requires { Counts text p.now days.now truths.now symbols.now }
    ensures { result ≡ list_ok_in text p.now ty start count }
{
    let end = (start as usize) + (count as usize);
    if p.len() / 8 < end {
        return false;
    }
    if ty == 1 {
        return true;
    }
    if ty == 2 {
        return counts_fit(text, p, days, ty, start, count);
    }
    if ty == 3 {
        return counts_fit(text, p, truths, ty, start, count);
    }
    if ty == 4 {
        return counts_fit(text, p, symbols, ty, start, count);
    }
    all_fit(text, p, ty, start, count)
}
