// Bytes, numbers and values put into an output from a place on. What lies past the output's end is counted and not written, so that
// a dry run over an empty part measures.
#![tactic(auto)]

mod digits;
mod long;
mod output;
mod step;

ghost use Rattle.std.specs.Prelude.{◌≡◌, [], ◌∷◌, ◌+◌, ◌≤◌, ◌<◌, length, T};
ghost use Rattle.model.specs.Value.{allowed};
ghost use Rattle.model.specs.Text.{measure_of, signed};
ghost use Rattle.model.specs.View.{shown};
ghost use Rattle.kind.specs.Code.{code};
ghost use Rattle.text.specs.Overlay.{Wrote};

pub use digits::put_decimal;
use kind::Kind;
pub use long::{put_decimal_u64, put_signed_i64};
pub use output::Output;
pub use step::Step;

// Tried and slower: these functions as methods that change an output's place in memory at each byte, 28 ns a line in place of 21.5. So the
// place goes from one to the next as a number, and `Output` holds it between whole numbers, texts and values.

// One byte.
pub fn put_byte(out: &mut [u8], at: usize, b: u8) -> usize
    requires { at < 4294967296 }
    ensures { Wrote out.old at (b ∷ []) out.new result }
{
    if out.len() <= at {
        return at + 1;
    }
    out[at] = b;
    at + 1
}

// The bytes of s: all of them, or those that the output has room for.
pub fn put_bytes(out: &mut [u8], at: usize, s: &[u8]) -> usize
    requires { at + length s.now ≤ 4294967296 }
    ensures { Wrote out.old at s.now out.new result }
{
    let end = at + s.len();
    if end <= out.len() {
        out[at..end].copy_from_slice(s);
    } else if at < out.len() {
        let room = out.len() - at;
        out[at..].copy_from_slice(&s[..room]);
    }
    end
}

// The number that a measure's four bytes hold, lowest first.
pub fn measure_of(v: &[u8]) -> u32
    requires { length v.now ≡ 4 }
    ensures { result ≡ measure_of v.now }
{
    octets::word(v[0], v[1], v[2], v[3])
}

// A number of 32 bits as a signed number in decimal, with a minus sign if it is negative.
pub fn put_signed(out: &mut [u8], at: usize, m: u32) -> usize
    requires { at + 11 < 4294967296 }
    ensures { Wrote out.old at (signed m) out.new result }
{
    if m < 2147483648 {
        return put_decimal(out, at, m);
    }
    let digits = put_byte(out, at, b'-');
    put_decimal(out, digits, 4294967295 - m + 1)
}

// A value as it is shown: a number in decimal, - for no bytes, and else the bytes.
pub fn put_value(out: &mut [u8], at: usize, kind: Kind, value: &[u8]) -> usize
    requires at_bound { at + 16 < 4294967296 }
    requires t { T (allowed (code kind) value.now) }
    ensures { Wrote out.old at (shown (code kind) value.now) out.new result }
{
    let rule = kind.rule();
    if rule.number {
        return put_signed(out, at, measure_of(value));
    }
    if value.len() == 0 {
        return put_byte(out, at, b'-');
    }
    put_bytes(out, at, value)
}
