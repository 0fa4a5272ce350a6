// A column's place in the table, and the length of a list of columns or nodes.
ghost use Rattle.std.specs.Prelude.{◌≡◌, cond, ◌+◌, ◌<◌, ◌≤◌, ◌%◌};

use records::record::Column;

/// A column's place in the table.
pub fn slot(a: Column) -> usize
    ensures { result ≡ a.0 % 64 }
{
    (a.0 % 64) as usize
}

/// The next length of a list that takes something in unless it is held already.
pub fn bump(held: bool, n: usize) -> usize
    requires { n < 100000 }
    ensures value { result ≡ cond held n (n + 1) }
    ensures upper_bound { result ≤ n + 1 }
{
    if held {
        return n;
    }
    n + 1
}
