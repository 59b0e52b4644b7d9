// Calls as they were read from a line, carried out on a store.
ghost use Rattle.std.specs.Prelude.{◌≡◌, ◌≤◌, length};
ghost use Rattle.model.specs.Call as calls;
ghost use Rattle.model.specs.Call.{by, counted};
ghost use Rattle.model.specs.Script.{content_of};
ghost use Rattle.promise.specs.Did.{Inserted, Updated};
ghost use Rattle.promise.specs.Refusals.{number_of, count_of};
ghost use Rattle.script.specs.Values.{value_of};
ghost use Rattle.carry.specs.Brought.{ActsOn};
ghost use Rattle.carry.specs.Done.{Performed, call_on};

use promise::Refusal;
use script::{Call, Read, Value};

// What a call answered, and how many bytes it wrote.
#[derive(Drop)]
pub struct Done {
    pub answer: Result<usize, Refusal>,
    pub wrote: usize,
}

// Makes a call with the value that a line brings: its kind and its bytes. A kind is a number here, as in the call, which takes numbers that
// no kind has, too (the C interface), and refuses them.
fn bring<F: FnOnce(&mut [u8], u32, &[u8]) -> Result<usize, Refusal>>(
    store: &mut [u8],
    v: Value,
    line: &[u8],
    act: F,
) -> Result<usize, Refusal>
    requires { F.IsAlwaysCallable act }
    ensures { ActsOn F.FnOnce act store.old (content_of (value_of v line.now)) result store.new }
{
    match v {
        Value::Group => act(store, 0, &[]),
        Value::Measure(m) => act(store, 1, &m.to_le_bytes()),
        Value::Text(n) => {
            let at = line.len().saturating_sub(n);
            act(store, 2, &line[at..])
        }
    }
}

// A view, into the first 16,384 bytes of the output.
fn view(store: &mut [u8], subject: u32, path: &[u8], out: &mut [u8]) -> Done
    requires { 16384 ≤ length out.old }
    ensures { Performed (by subject (calls.view path.now 16384)) store.old out.old (counted (number_of result.answer) (count_of result.answer)) result.wrote store.new out.new }
{
    let answer = dossier::view(store, subject, path, &mut out[..16384]);
    let wrote = match answer {
        Ok(count) => count,
        Err(_) => 0,
    };
    Done { answer, wrote }
}

// The answer of a call that writes no output.
fn silent(answer: Result<usize, Refusal>) -> Done
    ensures { result ≡ record { answer = answer; wrote = 0 } }
{
    Done { answer, wrote: 0 }
}

// Carries out a call that was read from a line, its path given as bytes.
pub fn perform(store: &mut [u8], read: Read, line: &[u8], path: &[u8], out: &mut [u8]) -> Done
    requires { 16384 ≤ length out.old }
    ensures { Performed (call_on read path.now line.now) store.old out.old (counted (number_of result.answer) (count_of result.answer)) result.wrote store.new out.new }
{
    let subject = read.subject;
    match read.call {
        Call::View => view(store, subject, path, out),
        Call::Insert(v) => silent(bring(
            store,
            v,
            line,
            |store: &mut [u8], kind: u32, value: &[u8]|
                ensures { Inserted subject path.entry.now kind value.now store.old (number_of result) (count_of result) store.new }
            { dossier::insert(store, subject, path, kind, value) },
        )),
        Call::Update(v) => silent(bring(
            store,
            v,
            line,
            |store: &mut [u8], kind: u32, value: &[u8]|
                ensures { Updated subject path.entry.now kind value.now store.old (number_of result) (count_of result) store.new }
            { dossier::update(store, subject, path, kind, value) },
        )),
        Call::Delete => silent(dossier::delete(store, subject, path)),
    }
}
