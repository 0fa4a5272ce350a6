// The merging of an accepted screen with symbols (02, 2.10), by its screen of ranks.
#![tactic(auto)]

ghost use Rattle.std.specs.Prelude.{◌≡◌, ℕ, ◌*◌, ◌≤◌, min, length, get_or};
ghost use Rattle.checking.specs.Check.{check_answer_in};
ghost use Rattle.checking.specs.Tree.{tree_count};
ghost use Rattle.checking.specs.Answer as check;
ghost use Rattle.merge.specs.Demand.{AreBytes};
ghost use Rattle.merge.specs.Minterms.{minterms};
ghost use Rattle.read_operands.specs.Walk.{walked, first_of};
ghost use Rattle.symbol_screens.specs.Placed.{place_count};
ghost use Rattle.symbol_screens.specs.Rewriting.{lent};
ghost use Rattle.symbol_merge.specs.Explains.{Explains};

use merge::answer::Rewriting;
use ranked_screen::rank::rank_screen;
use records::record::Node;
use symbol_merge::merge_symbols;

// The first n nodes are the conjuncts of an accepted screen; `values`, `places` and `ranks` have room for its places, `src` and
// `pool` for its screen of ranks.
fn merge_ranked(
    t: &[u8],
    rs: &mut [u8],
    p: &[u8],
    text: &[u8],
    used: u32,
    root: Node,
    trees: &[u16],
    nodes: &[u32],
    n: usize,
    values: &mut [u64],
    places: &mut [u64],
    ranks: &mut [u64],
    src: &mut [u8],
    pool: &mut [u8],
    reasons: &mut [u8],
) -> Rewriting
    requires accepted { check_answer_in (lent text.now) t.now rs.old p.now used root.0 ≡ check.Accepted }
    requires counted { (a : ℕ) → a ≤ root.0 → get_or trees.now a 0 ≡ min (tree_count rs.old a) 4097 }
    requires small { tree_count rs.old root.0 ≤ 4096 }
    requires walked { first_of nodes.now n ≡ minterms (walked rs.old) root.0 }
    requires there { (n ≤ 128) × (n ≤ length nodes.now) }
    requires room { (place_count p.now used ≤ length values.old) × (place_count p.now used ≤ length places.old)
        × (place_count p.now used ≤ length ranks.old) }
    requires copied { (16 * used ≤ length src.old) × (2 * length p.now ≤ length pool.old)
        × (length values.old ≤ 12288) × (length values.old ≤ length places.old) }
    ensures explains { AreBytes text.now → Explains text.now t.now rs.old
        p.now used root.0 reasons.old result rs.new reasons.new }
{
    rank_screen(text, rs, p, used as usize, values, places, ranks, src, pool);
    merge_symbols(
        t, rs, p, text, used, root, trees, nodes, n, src, pool, reasons, values, places,
    )
}

// In tables for that many places, bytes of records and bytes of ranks and values.
fn merge_in<const PLACES: usize, const RECORDS: usize, const POOL: usize>(
    t: &[u8],
    rs: &mut [u8],
    p: &[u8],
    text: &[u8],
    used: u32,
    root: Node,
    trees: &[u16],
    nodes: &[u32],
    n: usize,
    reasons: &mut [u8],
) -> Rewriting
    requires accepted { check_answer_in (lent text.now) t.now rs.old p.now used root.0 ≡ check.Accepted }
    requires counted { (a : ℕ) → a ≤ root.0 → get_or trees.now a 0 ≡ min (tree_count rs.old a) 4097 }
    requires small { tree_count rs.old root.0 ≤ 4096 }
    requires walked { first_of nodes.now n ≡ minterms (walked rs.old) root.0 }
    requires there { (n ≤ 128) × (n ≤ length nodes.now) }
    requires room { (place_count p.now used ≤ PLACES) × (PLACES ≤ 12288) }
    requires copied { (16 * used ≤ RECORDS) × (RECORDS ≤ 65536) × (2 * length p.now ≤ POOL) × (POOL ≤ 131072) }
    ensures explains { AreBytes text.now → Explains text.now t.now rs.old
        p.now used root.0 reasons.old result rs.new reasons.new }
{
    let mut values = [0u64; PLACES];
    let mut places = [0u64; PLACES];
    let mut ranks = [0u64; PLACES];
    let mut src = [0u8; RECORDS];
    let mut pool = [0u8; POOL];
    merge_ranked(
        t,
        rs,
        p,
        text,
        used,
        root,
        trees,
        nodes,
        n,
        &mut values,
        &mut places,
        &mut ranks,
        &mut src,
        &mut pool,
        reasons,
    )
}

/// The merging of the first n nodes, the conjuncts of an accepted screen with symbols, in tables as large as it needs: most
/// have at most 64 records and 64 values in lists, and clearing the tables of the largest takes longer than all else.
pub fn merge_sized(
    t: &[u8],
    rs: &mut [u8],
    p: &[u8],
    text: &[u8],
    used: u32,
    root: Node,
    trees: &[u16],
    nodes: &[u32],
    n: usize,
    reasons: &mut [u8],
) -> Rewriting
    requires accepted { check_answer_in (lent text.now) t.now rs.old p.now used root.0 ≡ check.Accepted }
    requires counted { (a : ℕ) → a ≤ root.0 → get_or trees.now a 0 ≡ min (tree_count rs.old a) 4097 }
    requires small { tree_count rs.old root.0 ≤ 4096 }
    requires walked { first_of nodes.now n ≡ minterms (walked rs.old) root.0 }
    requires there { (n ≤ 128) × (n ≤ length nodes.now) }
    ensures explains { AreBytes text.now → Explains text.now t.now rs.old
        p.now used root.0 reasons.old result rs.new reasons.new }
{
    if 64 < used {
        return merge_in::<12288, 65536, 131072>(
            t, rs, p, text, used, root, trees, nodes, n, reasons,
        );
    }
    if 512 < p.len() {
        return merge_in::<12288, 65536, 131072>(
            t, rs, p, text, used, root, trees, nodes, n, reasons,
        );
    }
    merge_in::<128, 1024, 1024>(t, rs, p, text, used, root, trees, nodes, n, reasons)
}
