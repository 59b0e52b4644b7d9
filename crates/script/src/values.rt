// Values as they stand at the end of a line: a kind letter, a tab and what stands for the value.
ghost use Rattle.std.specs.Prelude.{◌≡◌, ◌≤◌, length, drop};
ghost use Rattle.model.specs.Lists.{all};
ghost use Rattle.model.specs.Value.{is_printable};
ghost use Rattle.script.specs.Values.{ShownAt, ValueAt};

use crate::Value;

// A measure: a number of 32 signed bits that ends with the line.
fn measure_at(line: &[u8], at: usize) -> Option<Value>
    requires { at ≤ length line.now }
    ensures { ShownAt 77 line.now at result }
{
    let (m, next) = scan::signed_at(line, at)?;
    if next < line.len() {
        return None;
    }
    Some(Value::Measure(m as u32))
}

// Whether each byte from at on is printable.
fn is_printable(line: &[u8], at: usize) -> bool
    requires { at ≤ length line.now }
    ensures { result ≡ all is_printable (drop at line.now) }
{
    line[at..].iter().all(|x| matches!(*x, b' '..=b'~'))
}

// A text: printable bytes, of any number.
fn text_at(line: &[u8], at: usize) -> Option<Value>
    requires { at ≤ length line.now }
    ensures { ShownAt 84 line.now at result }
{
    if !is_printable(line, at) {
        return None;
    }
    Some(Value::Text(line.len() - at))
}

// A group: a minus sign alone.
fn group_at(line: &[u8], at: usize) -> Option<Value>
    ensures { ShownAt 71 line.now at result }
{
    if !scan::holds(line, at, b'-') {
        return None;
    }
    if at + 1 < line.len() {
        return None;
    }
    Some(Value::Group)
}

// The value at a line's end.
pub fn value_at(line: &[u8], at: usize) -> Option<Value>
    requires { at ≤ length line.now }
    ensures { ValueAt line.now at result }
{
    if line.len() <= at {
        return None;
    }
    if !scan::holds(line, at + 1, b'\t') {
        return None;
    }
    match line[at] {
        b'G' => group_at(line, at + 2),
        b'M' => measure_at(line, at + 2),
        b'T' => text_at(line, at + 2),
        _ => None,
    }
}
