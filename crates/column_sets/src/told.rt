// What the conjuncts say, in one lent table of two words a conjunct: word 2j + 1 is the kind of conjunct j (0 excludes its
// literal, 1 allows its list, 2 disallows it, another gives nothing), word 2j its literal or, of kinds 1 and 2, its list's start in
// the pool and 2^32 times the count. A read past the table's end is 0.
ghost use Rattle.std.specs.Prelude.{◌≡◌, get_or};
ghost use Rattle.column_constraints.specs.Abstraction.{each, list_in, kinds_in, values_in, starts_in, counts_in};

pub fn kind_at(told: &[u64], j: usize) -> u64
    ensures { result ≡ get_or (kinds_in told.now) j 0 }
{
    if j < told.len() / 2 {
        return told[2 * j + 1];
    }
    0
}

pub fn word_at(told: &[u64], j: usize) -> u64
    ensures { result ≡ get_or (values_in told.now) j 0 }
{
    if j < told.len() / 2 {
        return told[2 * j];
    }
    0
}

// The list's start and count in one word, 0 of a conjunct without a list.
fn list_at(told: &[u64], j: usize) -> u64
    ensures { result ≡ get_or (each list_in told.now) j 0 }
{
    if j < told.len() / 2 {
        let k = told[2 * j + 1];
        if (k == 1) | (k == 2) {
            return told[2 * j];
        }
        return 0;
    }
    0
}

pub fn start_at(told: &[u64], j: usize) -> u32
    ensures { result ≡ get_or (starts_in told.now) j 0 }
{
    (list_at(told, j) % 4294967296) as u32
}

pub fn count_at(told: &[u64], j: usize) -> u32
    ensures { result ≡ get_or (counts_in told.now) j 0 }
{
    (list_at(told, j) / 4294967296) as u32
}
