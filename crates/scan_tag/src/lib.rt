// Tags as they stand in a text. What a start tag shows of an element is its kind, or none if it is removed.
#![tactic(auto)]

ghost use Rattle.std.specs.Prelude.{◌≤◌, ◌<◌, length};
ghost use Rattle.scan_tag.specs.Tags.{LetterAt, MarkAt, BehindAt, TagAt, EndAt};

use kind::Kind;

// A start tag: its step, what it shows, and where it ends.
#[derive(Drop)]
pub struct Tag {
    pub name: u64,
    pub label: u64,
    pub shown: Option<Kind>,
    pub next: usize,
}

// The kind that a live element's letter tells, and where its tag ends.
fn letter_at(text: &[u8], at: usize) -> Option<(Kind, usize)>
    requires { at ≤ length text.now }
    ensures { LetterAt text.now at result }
{
    if !scan::starts(text, at + 1, b"\">") {
        return None;
    }
    match text[at] {
        b'G' => Some((Kind::Group, at + 3)),
        b'M' => Some((Kind::Measure, at + 3)),
        b'T' => Some((Kind::Text, at + 3)),
        _ => None,
    }
}

// What a start tag shows behind the digits of its label, and where it ends. Byte 12 tells a removed element from a live one, so
// that one piece alone is compared.
fn mark_at(text: &[u8], at: usize) -> Option<(Option<Kind>, usize)>
    requires { at ≤ length text.now }
    ensures { MarkAt text.now at result }
{
    if scan::holds(text, at + 12, b'R') {
        if !scan::starts(text, at, b"\" preserve=\"REMOVED\" kind=\"-\">") {
            return None;
        }
        return Some((None, at + 30));
    }
    if !scan::starts(text, at, b"\" preserve=\"PRESENT\" kind=\"") {
        return None;
    }
    let (kind, next) = letter_at(text, at + 27)?;
    Some((Some(kind), next))
}

// The number behind the given bytes, and where it ends.
fn number_behind(text: &[u8], at: usize, bytes: &[u8], most: u64) -> Option<(u64, usize)>
    requires at_in_bounds { at ≤ length text.now }
    requires most_bound { most < 4294967296 }
    ensures { BehindAt bytes.now most text.now at result }
{
    if !scan::starts(text, at, bytes) {
        return None;
    }
    scan::number_at(text, at + bytes.len(), most)
}

// The start tag at a place.
pub fn tag_at(text: &[u8], at: usize) -> Option<Tag>
    requires { at ≤ length text.now }
    ensures { TagAt text.now at result }
{
    let (name, gap) = number_behind(text, at, b"<e", 65535)?;
    if name == 0 {
        return None;
    }
    let (label, quote) = number_behind(text, gap, b" label=\"", 31)?;
    let (shown, next) = mark_at(text, quote)?;
    Some(Tag {
        name,
        label,
        shown,
        next,
    })
}

// Where the end tag of a name at a place ends.
pub fn end_at(text: &[u8], at: usize, name: u64) -> Option<usize>
    requires { (at ≤ length text.now) × (name ≤ 65535) }
    ensures { EndAt text.now at name result }
{
    let (read, end) = number_behind(text, at, b"</e", 65535)?;
    if read != name {
        return None;
    }
    if !scan::holds(text, end, b'>') {
        return None;
    }
    Some(end + 1)
}
