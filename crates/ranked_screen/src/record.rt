// The records of the screen of ranks: those sent, but that symbols are Ints.
ghost use Rattle.std.specs.Prelude.{◌≡◌, ◌+◌, ◌*◌, ◌≤◌, ◌<◌, length};
ghost use Rattle.ranked_screen.specs.Screen.{ranked_literal, ranked_list, ranked_record, list_start, ListsIn, RankedRecords};

use records::record::{Node, Record, record_at};
use rewrite::write::put_record;

fn ranked_literal(rank: u64, ty: u8, v: u64) -> Record
    ensures { result ≡ ranked_literal rank ty v }
{
    if ty == 4 {
        return Record::Literal(1, rank);
    }
    Record::Literal(ty, v)
}

fn ranked_list(words: u32, ty: u8, marked: bool, start: u32, count: u32) -> Record
    requires { words + start < 4294967296 }
    ensures { result ≡ ranked_list words ty marked start count }
{
    if ty == 4 {
        return Record::List(1, marked, start, count);
    }
    Record::List(ty, marked, words + start, count)
}

fn ranked_record(words: u32, rank: u64, r: Record) -> Record
    requires { words + list_start r < 4294967296 }
    ensures { result ≡ ranked_record words rank r }
{
    match r {
        Record::Literal(ty, v) => ranked_literal(rank, ty, v),
        Record::List(ty, marked, start, count) => ranked_list(words, ty, marked, start, count),
        _ => r,
    }
}

/// The first `used` records with their ranks into `src`.
pub fn rank_records(rs: &[u8], ranks: &[u64], words: u32, used: u32, src: &mut [u8])
    requires used_bound { (used ≤ 4096) × (words ≤ 8192) × ListsIn rs.now used words }
    requires used_in_bounds { (used ≤ length ranks.now) × (16 * used ≤ length src.old) }
    ensures { RankedRecords rs.now ranks.now words used src.new }
{
    for i in 0..used {
        let r = record_at(rs, Node(i));
        put_record(src, Node(i), ranked_record(words, ranks[i as usize], r));
    }
}
