// The numbers of the symbols at the screen's places.
ghost use Rattle.std.specs.Prelude.{◌≤◌, length};
ghost use Rattle.ranked_chain.specs.RankedChain.{Numbered};

use text_order::number::number;

/// Of the first n values.
pub fn number_all(codes: &[u64], values: &[u64], n: usize, numbers: &mut [u64])
    requires { (8192 ≤ length codes.now) × (n ≤ length values.now) × (n ≤ length numbers.old) }
    ensures { Numbered codes.now values.now n numbers.new }
{
    for i in 0..n {
        numbers[i] = number(codes, values[i]);
    }
}
