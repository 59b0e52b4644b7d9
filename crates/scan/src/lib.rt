// What stands at a place of a text: a byte, given bytes, a number in decimal, with or without a sign.
#![tactic(auto)]

mod numbers;
mod signed;

ghost use Rattle.std.specs.Prelude.{◌≡◌, drop};
ghost use Rattle.scan.specs.Text.{begins, is_front};

pub use numbers::number_at;
pub use signed::signed_at;

// Whether the byte b stands at at.
pub fn holds(text: &[u8], at: usize, b: u8) -> bool
    ensures { result ≡ begins b (drop at text.now) }
{
    at < text.len() && text[at] == b
}

// Whether the bytes stand at at.
pub fn starts(text: &[u8], at: usize, bytes: &[u8]) -> bool
    ensures { result ≡ is_front bytes.now (drop at text.now) }
{
    if text.len() <= at {
        return bytes.is_empty();
    }
    text[at..].starts_with(bytes)
}
