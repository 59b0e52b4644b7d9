// Numbers of 64 bits in decimal, without and with a sign. One that 32 bits hold is put as a number of 32 bits; from another the last
// eight digits are split off, so that no loop is needed.
ghost use Rattle.std.specs.Prelude.{◌+◌, ◌<◌};
ghost use Rattle.model.specs.Text.{decimal, whole_text};
ghost use Rattle.text.specs.Overlay.{Wrote};
ghost use Rattle.text.specs.Digits.{eight};

use crate::digits::{put_decimal, put_four};
use crate::put_byte;

// The eight digits of a number below a hundred million.
fn put_eight(out: &mut [u8], at: usize, n: u32) -> usize
    requires { (at + 8 < 4294967296) × (n < 100000000) }
    ensures { Wrote out.old at (eight n) out.new result }
{
    let last = put_four(out, at, n / 10000);
    put_four(out, last, n % 10000)
}

// A number of at most twelve digits in decimal.
fn put_to_twelve(out: &mut [u8], at: usize, n: u64) -> usize
    requires { (at + 12 < 4294967296) × (n < 1000000000000) }
    ensures { Wrote out.old at (decimal n) out.new result }
{
    if n < 4294967296 {
        return put_decimal(out, at, n as u32);
    }
    let last = put_decimal(out, at, (n / 100000000) as u32);
    put_eight(out, last, (n % 100000000) as u32)
}

// A number of 64 bits in decimal.
pub fn put_decimal_u64(out: &mut [u8], at: usize, n: u64) -> usize
    requires { at + 20 < 4294967296 }
    ensures { Wrote out.old at (decimal n) out.new result }
{
    if n < 4294967296 {
        return put_decimal(out, at, n as u32);
    }
    let last = put_to_twelve(out, at, n / 100000000);
    put_eight(out, last, (n % 100000000) as u32)
}

// A whole number of 64 bits in decimal, with a minus sign if it is negative.
pub fn put_signed_i64(out: &mut [u8], at: usize, n: i64) -> usize
    requires { at + 21 < 4294967296 }
    ensures { Wrote out.old at (whole_text n) out.new result }
{
    if 0 <= n {
        return put_decimal_u64(out, at, n as u64);
    }
    let digits = put_byte(out, at, b'-');
    put_decimal_u64(out, digits, (-1 - n) as u64 + 1)
}
