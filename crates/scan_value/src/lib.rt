// Values as they stand in a text between two tags.
#![tactic(auto)]

ghost use Rattle.std.specs.Prelude.{◌≡◌, ◌≤◌, T, length, drop, Some};
ghost use Rattle.scan.specs.Text.{begins};
ghost use Rattle.kind.specs.declared.Kind.TheVariants.{Measure, Text};
ghost use Rattle.scan_value.specs.Values.{CharAt, is_plain, ValueAt, NothingAt};

use kind::Kind;

// The character that is written at a place where an ampersand stands, and where it ends.
fn escape_at(text: &[u8], at: usize) -> Option<(u8, usize)>
    requires { T (begins 38 (drop at text.now)) }
    ensures { CharAt text.now at result }
{
    if scan::starts(text, at, b"&amp;") {
        return Some((b'&', at + 5));
    }
    if scan::starts(text, at, b"&lt;") {
        return Some((b'<', at + 4));
    }
    if scan::starts(text, at, b"&gt;") {
        return Some((b'>', at + 4));
    }
    None
}

// Whether a byte that is no ampersand stands for itself.
#[tactic(auto, unfolding(crate::specs::Values::is_plain, model::specs::Value::is_printable))]
fn is_plain(x: u8) -> bool
    ensures { result ≡ is_plain x }
{
    matches!(x, b' '..=b'~') && x != b'<' && x != b'>'
}

// The character at a place, and where it ends.
fn char_at(text: &[u8], at: usize) -> Option<(u8, usize)>
    ensures { CharAt text.now at result }
{
    if scan::holds(text, at, b'&') {
        return escape_at(text, at);
    }
    if text.len() <= at {
        return None;
    }
    let x = text[at];
    if !is_plain(x) {
        return None;
    }
    Some((x, at + 1))
}

// A text: its characters up to the next tag, 1 to 16, and where they end.
fn text_at(text: &[u8], at: usize, value: &mut [u8]) -> Option<(usize, usize)>
    requires at_in_bounds { at ≤ length text.now }
    requires in_bounds { 16 ≤ length value.old }
    ensures { ValueAt text.now at (Some Text) value.new result }
{
    let mut i = at;
    // Counted by hand: a character takes one byte of the buffer and one to five of the text, so no range or iterator counts both.
    let mut n: usize = 0;
    while !scan::holds(text, i, b'<') {
        if 16 <= n {
            return None;
        }
        let (x, next) = char_at(text, i)?;
        value[n] = x;
        n += 1;
        i = next;
    }
    if n == 0 {
        return None;
    }
    Some((n, i))
}

// A measure: a number up to the next tag.
fn measure_at(text: &[u8], at: usize, value: &mut [u8; 16]) -> Option<(usize, usize)>
    requires { at ≤ length text.now }
    ensures { ValueAt text.now at (Some Measure) value.new result }
{
    let (m, next) = scan::signed_at(text, at)?;
    if !scan::holds(text, next, b'<') {
        return None;
    }
    octets::put_word(m as u32, value);
    Some((4, next))
}

// No value: the next tag.
fn nothing_at(text: &[u8], at: usize) -> Option<(usize, usize)>
    requires { at ≤ length text.now }
    ensures { NothingAt text.now at result }
{
    if !scan::holds(text, at, b'<') {
        return None;
    }
    Some((0, at))
}

// The value behind a start tag that shows a kind or a removed element: how many bytes it has, which are written into the buffer, and where it
// ends.
pub fn value_at(
    text: &[u8],
    at: usize,
    shown: Option<Kind>,
    value: &mut [u8; 16],
) -> Option<(usize, usize)>
    requires { at ≤ length text.now }
    ensures { ValueAt text.now at shown value.new result }
{
    match shown {
        None => nothing_at(text, at),
        Some(Kind::Group) => nothing_at(text, at),
        Some(Kind::Measure) => measure_at(text, at, value),
        Some(Kind::Text) => text_at(text, at, value),
    }
}
