// Counting the classes of the rows, and writing the numbers of those that pass.
#![tactic(auto)]

ghost use Rattle.std.specs.Prelude.{◌≡◌, cond, ℕ, ◌+◌, ◌*◌, ◌/◌, ◌%◌, ◌≤◌, ◌<◌, List, [], ◌∷◌, eqb, length, get_or};
ghost use Rattle.file_blocks.specs.Format.{overwrite};
ghost use Rattle.row_list.specs.Numbers.{count, numbers, bytes_of};

fn one_if(a: u8, b: u8) -> u64
    ensures { result ≡ cond (eqb a b) 1 0 }
{
    if a == b { 1 } else { 0 }
}

/// How many of the first `rows` classes are `class`.
pub fn count_class(classes: &[u8], rows: usize, class: u8) -> u64
    requires { rows ≤ length classes.now }
    ensures { result ≡ count (λ (i : ℕ). eqb (get_or classes.now i 0) class) rows }
{
    let mut n: u64 = 0;
    // `filter` and `count` of std branch on each class, which no predictor guesses; this loop has no branch.
    for i in 0..rows {
        n += one_if(classes[i], class);
    }
    n
}

// The number of a row that passes, two bytes, at `at`; where the next one goes.
fn put_number(list: &mut [u8], at: usize, number: usize, class: u8) -> usize
    requires at_in_bounds { at + 2 ≤ length list.old }
    requires number_bound { number < 1024 }
    ensures value { result ≡ at + cond (eqb class 2) 2 0 }
    ensures list_after { list.new ≡ cond (eqb class 2)
        (overwrite list.old at (number % 256 ∷ number / 256 ∷ [])) list.old }
{
    if class != 2 {
        return at;
    }
    list[at] = (number % 256) as u8;
    list[at + 1] = (number / 256) as u8;
    at + 2
}

/// The numbers of the rows whose class is 2, into the list's first places.
pub fn write_list(classes: &[u8], rows: usize, list: &mut [u8])
    requires rows_in_bounds { rows ≤ length classes.now }
    requires rows_bound { rows ≤ 1024 }
    requires rows_in_bounds_2 { 2 * rows ≤ length list.old }
    ensures { list.new ≡ overwrite list.old 0
        (bytes_of (numbers (λ (i : ℕ). eqb (get_or classes.now i 0) 2) rows)) }
{
    let mut at: usize = 0;
    for i in 0..rows {
        at = put_number(list, at, i, classes[i]);
    }
}
