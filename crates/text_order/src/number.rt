// The number of a symbol, by the words of the starts.
ghost use Rattle.std.specs.Prelude.{◌≡◌, ◌≤◌, ◌<◌, length};
ghost use Rattle.text_order.specs.Codes.{rank_in, depth_in, link_in, before_in, walk, code_of};

pub fn rank_in(w: u64) -> u64
    ensures { result ≡ rank_in w }
{
    w % 8192
}

pub fn depth_in(w: u64) -> u64
    ensures { result ≡ depth_in w }
{
    w / 8192 % 32
}

pub fn link_in(w: u64) -> u64
    ensures { result ≡ link_in w }
{
    w / 262144 % 8192
}

pub fn before_in(w: u64) -> u64
    ensures { result ≡ before_in w }
{
    w / 2147483648 % 8192
}

// From a start on, the rank of the first that has its first l bytes.
fn first_rank(codes: &[u64], start: u64, l: u64) -> u64
    requires { (8192 ≤ length codes.now) × (start < 8192) }
    ensures { result ≡ walk 17 codes.now start l }
{
    let mut s = start;
    for _left in (0usize..17).rev() {
        let w = codes[s as usize];
        if depth_in(w) < l {
            return rank_in(w);
        }
        s = link_in(w);
    }
    rank_in(codes[s as usize])
}

/// The number of the symbol v. The empty one is below all others.
pub fn number(codes: &[u64], v: u64) -> u64
    requires { 8192 ≤ length codes.now }
    ensures { result ≡ code_of codes.now v }
{
    let l = v / 4294967296;
    if l == 0 {
        return 0;
    }
    let start = v % 4294967296;
    32 * first_rank(codes, start % 8192, l) + l
}
