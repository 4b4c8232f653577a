// A lent table of bytes.
ghost use Rattle.std.specs.Prelude.{◌≡◌, length, replicate};

// Every byte becomes 0.
pub fn clear(table: &mut [u8])
    ensures { table.new ≡ replicate (length table.old) 0 }
{
    table.fill(0);
}
