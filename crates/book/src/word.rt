// The 16-bit numbers of a book, low byte first.
ghost use Rattle.std.specs.Prelude.{◌≡◌, ◌+◌, ◌<◌, length};
ghost use Rattle.book.specs.Format.{word_at};

#[tactic(auto, unfolding(crate::specs::Format::word_at))]
pub fn word(book: &[u8], at: usize) -> u16
    requires { at + 1 < length book.now }
    ensures { result ≡ word_at book.now at }
{
    u16::from_le_bytes([book[at], book[at + 1]])
}
