// A screen with symbols told as one of numbers (02, 2.10): each Text column, literal, null and list becomes one of type Int and
// keeps its bits, since every 64 bits are an Int. Whatever does not ask for types reads the same of both.
#![tactic(auto)]

ghost use Rattle.std.specs.Prelude.{◌≡◌, ℕ, ◌≤◌, ◌<◌, length, get_or};
ghost use Rattle.numbered_screen.specs.Numbered.{number_type, number_byte};

fn number_type(ty: u8) -> u8
    ensures { result ≡ number_type ty }
{
    if ty == 4 {
        return 1;
    }
    ty
}

/// The types of the columns, into `table`.
pub fn number_table(t: &[u8], table: &mut [u8])
    requires { length t.now ≤ length table.old }
    ensures { (c : ℕ) → c < length t.now →
        get_or table.new c 0 ≡ number_type (get_or t.now c 0) }
{
    for (c, ty) in t.iter().enumerate() {
        table[c] = number_type(*ty);
    }
}

// Byte 2 of a record is its type.
fn number_byte(i: usize, byte: u8) -> u8
    ensures { result ≡ number_byte i byte }
{
    if i % 16 == 2 {
        return number_type(byte);
    }
    byte
}

/// The first n bytes of the records, into `records`.
pub fn number_records(rs: &[u8], n: usize, records: &mut [u8])
    requires { (n ≤ length rs.now) × (n ≤ length records.old) }
    ensures { (i : ℕ) → i < n → get_or records.new i 0 ≡ number_byte i (get_or rs.now i 0) }
{
    for i in 0..n {
        records[i] = number_byte(i, rs[i]);
    }
}
