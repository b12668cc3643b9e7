// Bytes taken out of a buffer: what follows closes up, and the end is zeros.
ghost use Rattle.std.specs.Prelude.{◌≡◌, ◌++◌, ◌+◌, ◌≤◌, length, take, drop, replicate};

// Takes n bytes out at a place.
pub fn close_up(buffer: &mut [u8], at: usize, n: usize)
    requires { at + n ≤ length buffer.old }
    ensures { buffer.new ≡ take at buffer.old ++ drop (at + n) buffer.old ++ replicate n 0 }
{
    let kept = buffer.len() - n;
    buffer.copy_within(at + n.., at);
    buffer[kept..].fill(0);
}
