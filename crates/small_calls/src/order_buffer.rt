// An order written to the start of a lent buffer.
ghost use Rattle.std.specs.Prelude.{◌≡◌, ◌++◌, ◌≤◌, length, take, drop};

// The first n bytes, and no byte beyond them.
pub(crate) fn put_order(places: [u8; 8], n: usize, buffer: &mut [u8])
    requires { (n ≤ 8) × (n ≤ length buffer.old) }
    ensures { buffer.new ≡ take n places ++ drop n buffer.old }
{
    buffer[..n].copy_from_slice(&places[..n]);
}
