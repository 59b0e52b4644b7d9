// A script line read into a call (document 01, "The printed view and the call runner").
#![tactic(auto)]

ghost use Rattle.std.specs.Prelude.{◌≤◌, length, drop, T};
ghost use Rattle.model.specs.Script.{Reading};
ghost use Rattle.script.specs.Text.{closes};
ghost use Rattle.script.specs.Calls.{HeadAt, BareAs, CallAt, reading_of, Spans};

mod paths;
mod places;
mod values;

// A value: a group, a measure's 32 bits, or the length of a text, whose bytes are the last of the line. It is no part of the line, as
// only without a place in memory are two readings of one line equal (read-unique, in proofs).
#[derive(Drop)]
pub enum Value {
    Group,
    Measure(u32),
    Text(usize),
}

// One of four calls, with its value inside.
#[derive(Drop)]
pub enum Call {
    View,
    Insert(Value),
    Update(Value),
    Delete,
}

// A call with its subject, and how many steps its path has, which stand in the buffer, three bytes each: a number for the same reason.
#[derive(Drop)]
pub struct Read {
    pub subject: u32,
    pub steps: usize,
    pub call: Call,
}

// Reads a line, its byte 10 not counted, if it reads as a call. The path's steps are written into the buffer, of whose other bytes
// nothing is said.
pub fn read_line(line: &[u8], path: &mut [u8]) -> Option<Read>
    requires { 192 ≤ length path.old }
    ensures reading { Reading line.now (reading_of result path.new line.now) }
    ensures spans { Spans result 192 (length line.now) }
{
    if 256 < line.len() {
        return None;
    }
    let (subject, verb, at) = head_of(line)?;
    let (steps, next) = paths::path_at(line, at, path)?;
    let call = call_at(line, verb, next)?;
    Some(Read {
        subject,
        steps,
        call,
    })
}

// The subject, a tab, the verb and a tab: the subject and the verb, and where the path begins.
fn head_of(line: &[u8]) -> Option<(u32, u8, usize)>
    ensures { HeadAt line.now result }
{
    let (subject, tab) = scan::number_at(line, 0, 255)?;
    if !scan::holds(line, tab, b'\t') {
        return None;
    }
    if !scan::holds(line, tab + 2, b'\t') {
        return None;
    }
    Some((subject as u32, line[tab + 1], tab + 3))
}

// The call of a verb, whose path ends at at.
fn call_at(line: &[u8], verb: u8, at: usize) -> Option<Call>
    requires at_in_bounds { at ≤ length line.now }
    requires t { T (closes (drop at line.now)) }
    ensures { CallAt line.now verb at result }
{
    if at == line.len() {
        return bare(verb);
    }
    let value = values::value_at(line, at + 1)?;
    match verb {
        b'I' => Some(Call::Insert(value)),
        b'U' => Some(Call::Update(value)),
        _ => None,
    }
}

// The call of a verb that has no value.
fn bare(verb: u8) -> Option<Call>
    ensures { BareAs verb result }
{
    match verb {
        b'V' => Some(Call::View),
        b'D' => Some(Call::Delete),
        _ => None,
    }
}
