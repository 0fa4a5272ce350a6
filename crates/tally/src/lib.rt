// The desk's running tally: how many rows passed, were false, were unknown (02, 2.14). The desk lends it, and it is added
// to where it is kept: `add` is thin over `added`, which takes a tally by value and returns one. The two views take it by value.
#![tactic(auto)]

ghost use Rattle.std.specs.Prelude.{◌≡◌};
ghost use Rattle.tally.specs.Sums.{fits, sums_fit, added};
ghost use Rattle.tally.specs.Views.{TraderView, RiskView};

/// `struct screen_tally` of include/screen.h.
#[repr(C)]
#[derive(Clone, Copy)]
pub struct Tally {
    pub passed: u64,
    pub is_false: u64,
    pub unknown: u64,
}

// Whether two numbers together are 64 bits.
fn sum_fits(x: u64, y: u64) -> bool
    ensures { result ≡ fits x y }
{
    x <= 18446744073709551615 - y
}

/// Whether the tally may grow by these numbers of rows; if not, number 21 is the answer.
pub fn sums_fit(t: Tally, passed: u64, is_false: u64, unknown: u64) -> bool
    ensures { result ≡ sums_fit t passed is_false unknown }
{
    if !sum_fits(t.passed, passed) {
        return false;
    }
    if !sum_fits(t.is_false, is_false) {
        return false;
    }
    if !sum_fits(t.unknown, unknown) {
        return false;
    }
    sum_fits(t.is_false + is_false, t.unknown + unknown)
}

/// The tally after a chain with these numbers of rows; the same tally where 21 is the answer.
pub fn added(t: Tally, passed: u64, is_false: u64, unknown: u64) -> Tally
    ensures { result ≡ added t passed is_false unknown }
{
    if !sums_fit(t, passed, is_false, unknown) {
        return t;
    }
    Tally {
        passed: t.passed + passed,
        is_false: t.is_false + is_false,
        unknown: t.unknown + unknown,
    }
}

/// The lent tally, added to where it is kept.
pub fn add(t: &mut Tally, passed: u64, is_false: u64, unknown: u64)
    ensures { t.new ≡ added t.old passed is_false unknown }
{
    *t = added(*t, passed, is_false, unknown);
}

/// The trader's view. 256: both numbers are written. 21, and nothing is written: false and unknown together pass 64 bits.
pub fn trader_view(t: Tally, passed: &mut u64, not_passed: &mut u64) -> u32
    ensures { TraderView t result passed.old passed.new not_passed.old
        not_passed.new }
{
    if !sum_fits(t.is_false, t.unknown) {
        return 21;
    }
    *passed = t.passed;
    *not_passed = t.is_false + t.unknown;
    256
}

/// The risk view. 256: the three numbers are written. No tally is refused.
pub fn risk_view(t: Tally, passed: &mut u64, is_false: &mut u64, unknown: &mut u64) -> u32
    ensures { RiskView t result passed.new is_false.new unknown.new }
{
    *passed = t.passed;
    *is_false = t.is_false;
    *unknown = t.unknown;
    256
}
