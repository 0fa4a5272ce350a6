// What the walk over the conjuncts, `MintermIter`, asks of a record: whether it is an And or LogicalAnd, and of what.
ghost use Rattle.std.specs.Prelude.{◌≡◌, ◌+◌, ◌*◌, ◌<◌, length};
ghost use Rattle.records.specs.Record.{record_at};
ghost use Rattle.read_operands.specs.Walk.{sides_in, record_sides};

use records::bytes::word_in;
use records::operator::Operator;
use records::record::{Node, Record, record_at};

fn record_sides(r: Record) -> Option<(Node, Node)>
    ensures { sides_in result ≡ record_sides r }
{
    match r {
        Record::Binary(Operator::And | Operator::LogicalAnd, x, y) => Some((x, y)),
        _ => None,
    }
}

// Sixteen bytes that are there: the walk wants the kind, the code and A and B, so no record is made. And has the code 15,
// LogicalAnd 18.
fn sides_in(rs: &[u8], n: Node) -> Option<(Node, Node)>
    requires { 16 * n.0 + 15 < length rs.now }
    ensures { sides_in result ≡ record_sides (record_at rs.now n) }
{
    let at = 16 * (n.0 as usize);
    if rs[at] != 4 {
        return None;
    }
    let code = rs[at + 1];
    if (code == 15) | (code == 18) {
        return Some((Node(word_in(rs, at + 4)), Node(word_in(rs, at + 8))));
    }
    None
}

/// The two sides of a record that is an And or LogicalAnd.
pub fn sides_at(rs: &[u8], n: Node) -> Option<(Node, Node)>
    ensures { sides_in result ≡ record_sides (record_at rs.now n) }
{
    if 16 * (n.0 as usize) + 15 < rs.len() {
        return sides_in(rs, n);
    }
    record_sides(record_at(rs, n))
}
