// Tables of five bytes an entry: nodes and cells are both held so.
ghost use Rattle.std.specs.Prelude.{◌≡◌, ◌<◌, ◌≤◌, length, true, false};
ghost use Rattle.named.specs.Cut.{room};
ghost use Rattle.named.specs.Entry.{put};

// The bytes of an entry: a kind, and two numbers of two bytes.
pub const ENTRY: usize = 5;

// Writes entry n, a kind and two numbers, if the table has room for it. Answers whether it had. The bytes are written as `put` has them, by
// remainder and quotient: `to_le_bytes` would make rows of two only to take them apart.
#[tactic(auto, unfolding(crate::specs::Cut::room, crate::specs::Entry::put))]
pub fn write_entry(table: &mut [u8], n: u16, kind: u8, left: u16, right: u16) -> bool
    ensures written { result ≡ true → (n < room (length table.old)) × (table.new ≡ put table.old n kind left right) }
    ensures full { result ≡ false → (room (length table.old) ≤ n) × (table.new ≡ table.old) }
{
    let at = ENTRY * (n as usize);
    if n == 65535 || table.len() < at + ENTRY {
        return false;
    }
    table[at] = kind;
    table[at + 1] = (left % 256) as u8;
    table[at + 2] = (left / 256) as u8;
    table[at + 3] = (right % 256) as u8;
    table[at + 4] = (right / 256) as u8;
    true
}
