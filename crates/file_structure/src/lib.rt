// Number 15: is this a file as saving writes it. Block by block, then each block beside the next, then the two ends and used.
#![tactic(auto)]

ghost use Rattle.std.specs.Prelude.{◌≡◌, ℕ, ◌+◌, ◌-◌, ◌*◌, ◌/◌, ◌≤◌, ◌<◌, true, eqb, length, get_or};
ghost use Rattle.records.specs.Bytes.{word};
ghost use Rattle.file_blocks.specs.Format.{item_size, capacity, repeats, place};
ghost use Rattle.file_structure.specs.Read.{kind_of, count_of, content_size, checksum_ok, number_ok, kind_ok, count_ok, zeros_from};
ghost use Rattle.file_structure.specs.Read.{unused_ok, block_ok, follows_ok, block_at, blocks_in, blocks_ok, order_ok, ends_ok, end_of};
ghost use Rattle.file_structure.specs.Read.{whole_ok, used_ok, root_of, structure_ok, count_if, total_to, total};

use checksum::block_checksum;
use records::bytes::word_in;

pub fn item_size(kind: u8) -> usize
    ensures value { result ≡ item_size kind }
    ensures upper_bound { result ≤ 16 }
{
    if kind == 1 {
        return 1;
    }
    if kind == 2 {
        return 16;
    }
    if kind == 5 {
        return 1;
    }
    8
}

fn capacity_of(kind: u8) -> u16
    ensures { result ≡ capacity kind }
{
    if kind == 1 {
        return 255;
    }
    if kind == 2 {
        return 31;
    }
    if kind == 3 {
        return 62;
    }
    if kind == 5 {
        return 496;
    }
    1
}

fn items_size(kind: u8, count: u16) -> usize
    ensures { result ≡ item_size kind * count }
{
    let size = item_size(kind);
    size * count as usize
}

fn two_bytes(low: u8, high: u8) -> u16
    ensures { result ≡ low + 256 * high }
{
    low as u16 + 256 * high as u16
}

fn count_in(b: &[u8]) -> u16
    requires { length b.now ≡ 512 }
    ensures { result ≡ count_of b.now }
{
    two_bytes(b[5], b[6])
}

pub fn content_size(b: &[u8]) -> usize
    requires { length b.now ≡ 512 }
    ensures { result ≡ content_size b.now }
{
    let count = count_in(b);
    items_size(b[4], count)
}

fn same_sum(high: u8, low: u8, sum: u16) -> bool
    ensures { result ≡ eqb (256 * high + low) sum }
{
    256 * high as u32 + low as u32 == sum as u32
}

fn checksum_ok(b: &[u8]) -> bool
    requires { length b.now ≡ 512 }
    ensures { result ≡ checksum_ok b.now }
{
    let sum = block_checksum(b);
    same_sum(b[0], b[1], sum)
}

fn same_number(low: u8, high: u8, i: usize) -> bool
    ensures { result ≡ eqb (low + 256 * high) i }
{
    low as usize + 256 * high as usize == i
}

fn number_ok(b: &[u8], i: usize) -> bool
    requires { length b.now ≡ 512 }
    ensures { result ≡ number_ok b.now i }
{
    same_number(b[2], b[3], i)
}

fn kind_ok(b: &[u8]) -> bool
    requires { length b.now ≡ 512 }
    ensures { result ≡ kind_ok b.now }
{
    (1 <= b[4]) & (b[4] <= 5)
}

fn count_ok(b: &[u8]) -> bool
    requires { length b.now ≡ 512 }
    ensures { result ≡ count_ok b.now }
{
    let most = capacity_of(b[4]);
    let count = count_in(b);
    ((b[4] == 1) | (0 < count)) & (count <= most)
}

fn zeros_from(b: &[u8], at: usize, n: usize) -> bool
    requires { at + n ≤ length b.now }
    ensures { result ≡ zeros_from b.now at n }
{
    (0..n).all(|j| b[at + j] == 0)
}

// A count that has passed `count_ok`.
fn unused_ok(b: &[u8]) -> bool
    requires b_len { length b.now ≡ 512 }
    requires b_bound { content_size b.now ≤ 496 }
    ensures { result ≡ unused_ok b.now }
{
    if !zeros_from(b, 7, 9) {
        return false;
    }
    let size = content_size(b);
    zeros_from(b, 16 + size, 496 - size)
}

fn block_ok(b: &[u8], i: usize) -> bool
    requires { length b.now ≡ 512 }
    ensures { result ≡ block_ok b.now i }
{
    if !checksum_ok(b) {
        return false;
    }
    if !number_ok(b, i) {
        return false;
    }
    if !kind_ok(b) {
        return false;
    }
    if !count_ok(b) {
        return false;
    }
    unused_ok(b)
}

fn blocks_ok(f: &[u8]) -> bool
    ensures { result ≡ blocks_ok f.now }
{
    (0..f.len() / 512).all(|i| {
        let start = 512 * i;
        block_ok(&f[start..start + 512], i)
    })
}

fn repeats_kind(kind: u8) -> bool
    ensures { result ≡ repeats kind }
{
    (kind == 2) | ((kind == 3) | (kind == 5))
}

// Text stands after the pool and before the end.
fn place_of(kind: u8) -> u8
    ensures { result ≡ place kind }
{
    if kind == 5 {
        return 4;
    }
    if kind == 4 {
        return 5;
    }
    kind
}

fn follows_ok(b: &[u8], next: &[u8]) -> bool
    requires b_len { length b.now ≡ 512 }
    requires next_len { length next.now ≡ 512 }
    ensures { result ≡ follows_ok b.now next.now }
{
    if b[4] == next[4] {
        return repeats_kind(b[4]) & (count_in(b) == capacity_of(b[4]));
    }
    place_of(b[4]) < place_of(next[4])
}

fn order_ok(f: &[u8]) -> bool
    requires { 512 ≤ length f.now }
    ensures { result ≡ order_ok f.now }
{
    (0..f.len() / 512 - 1).all(|i| {
        let start = 512 * i;
        let middle = start + 512;
        follows_ok(&f[start..middle], &f[middle..middle + 512])
    })
}

// The end's word at byte `at`.
pub fn end_word(f: &[u8], at: usize) -> u32
    requires in_bounds { 512 ≤ length f.now }
    requires at_bound { at ≤ 20 }
    ensures { result ≡ word (end_of f.now) at }
{
    let start = 512 * (f.len() / 512 - 1);
    let end = start + 512;
    word_in(&f[start..end], at)
}

fn ends_ok(f: &[u8]) -> bool
    requires { 512 ≤ length f.now }
    ensures { result ≡ ends_ok f.now }
{
    let start = 512 * (f.len() / 512 - 1);
    (f[4] == 1) & (f[start + 4] == 4)
}

// A block that has passed `block_ok`.
fn count_if(kind: u8, b: &[u8]) -> usize
    requires b_len { length b.now ≡ 512 }
    requires b_bound { count_of b.now ≤ 496 }
    ensures value { result ≡ count_if kind b.now }
    ensures upper_bound { result ≤ 496 }
{
    if b[4] == kind {
        return count_in(b) as usize;
    }
    0
}

// The total of the counts of a kind, of blocks that have passed `blocks_ok`.
pub fn total_of(kind: u8, f: &[u8]) -> usize
    requires { blocks_ok f.now ≡ true }
    ensures { result ≡ total kind f.now }
{
    let n = f.len() / 512;
    let mut sum: usize = 0;
    for i in 0..n {
        let start = 512 * i;
        let end = start + 512;
        sum += count_if(kind, &f[start..end]);
    }
    sum
}

fn used_ok(f: &[u8]) -> bool
    requires in_bounds { 512 ≤ length f.now }
    requires f_value { blocks_ok f.now ≡ true }
    ensures { result ≡ used_ok f.now }
{
    end_word(f, 16) as usize == total_of(2, f)
}

pub fn structure_ok(f: &[u8]) -> bool
    ensures { result ≡ structure_ok f.now }
{
    if f.len() % 512 != 0 {
        return false;
    }
    if f.len() < 512 {
        return false;
    }
    if !blocks_ok(f) {
        return false;
    }
    if !order_ok(f) {
        return false;
    }
    if !ends_ok(f) {
        return false;
    }
    used_ok(f)
}
