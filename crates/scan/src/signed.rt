// Numbers of 32 signed bits in decimal, as they stand in a text.
ghost use Rattle.std.specs.Prelude.{◌≤◌, length};
ghost use Rattle.scan.specs.Numbers.{SignedAt};

// The number of 32 signed bits that begins at at, as a number of 32 bits, and where it ends: a minus sign if it is negative, no leading zero, no -0, and no digit behind it.
pub fn signed_at(text: &[u8], at: usize) -> Option<(u64, usize)>
    requires { at ≤ length text.now }
    ensures { SignedAt text.now at result }
{
    if !crate::holds(text, at, b'-') {
        return crate::number_at(text, at, 2147483647);
    }
    let (n, next) = crate::number_at(text, at + 1, 2147483648)?;
    if n == 0 {
        return None;
    }
    Some((4294967296 - n, next))
}
