// Number 4: the types and their values. What the other fields must satisfy is told kind by kind (checking, step). `text` is
// one more than the bytes of the text pool that is lent, 0 where none is.
#![tactic(auto)]

ghost use Rattle.std.specs.Prelude.{◌≡◌};
ghost use Rattle.records.specs.Shape.{known_type_in, in_pool, in_type_in};

// 1 Int, 2 Day, 3 Truth, and 4 Text where a text pool is lent.
pub fn known_type(text: u32, ty: u8) -> bool
    ensures { result ≡ known_type_in text ty }
{
    if text == 0 {
        return 1 <= ty && ty <= 3;
    }
    1 <= ty && ty <= 4
}

// Whether a symbol lies in a pool of that many bytes, and has at most 16.
pub fn in_pool(size: u32, v: u64) -> bool
    ensures { result ≡ in_pool size v }
{
    let start = v % 4294967296;
    let count = v / 4294967296;
    (start + count <= size as u64) & (count <= 16)
}

// Whether 64 bits in two's complement are a value of the type.
pub fn in_type(text: u32, ty: u8, v: u64) -> bool
    ensures { result ≡ in_type_in text ty v }
{
    if ty == 1 {
        return true;
    }
    if ty == 2 {
        return v < 2147483648 || 18446744071562067968 <= v;
    }
    if text == 0 {
        return v <= 1;
    }
    if ty == 4 {
        return in_pool(text - 1, v);
    }
    v <= 1
}
