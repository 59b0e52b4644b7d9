// One script line carried out on a store: its listing, if any, and its A line.
#![tactic(auto)]

mod calls;

ghost use Rattle.std.specs.Prelude.{◌≡◌, [], ◌∷◌, ◌≤◌, length};
ghost use Rattle.model.specs.Script.{unread_line};
ghost use Rattle.text.specs.Overlay.{Wrote};
ghost use Rattle.promise.specs.Refusals.{number_of, count_of};
ghost use Rattle.carry.specs.Lines.{Carried, answer_line};

use calls::Done;
use promise::Refusal;

// A, ?, 0: for a line that does not read.
fn put_unread(out: &mut [u8]) -> usize
    ensures { Wrote out.old 0 unread_line out.new result }
{
    text::put_bytes(out, 0, b"A\t?\t0\n")
}

// The number and the count that an answer tells.
fn told(answer: Result<usize, Refusal>) -> (u32, usize)
    ensures { (result.0 ≡ number_of answer) × (result.1 ≡ count_of answer) }
{
    match answer {
        Ok(count) => (0, count),
        Err(refusal) => (u32::from(refusal), 0),
    }
}

// A, the number and the count.
fn put_answer(out: &mut [u8], at: usize, number: u32, count: u32) -> usize
    requires { at ≤ 16384 }
    ensures { Wrote out.old at (answer_line number count) out.new result }
{
    let a = text::put_bytes(out, at, b"A\t");
    let b = text::put_decimal(out, a, number);
    let c = text::put_byte(out, b, b'\t');
    let d = text::put_decimal(out, c, count);
    text::put_byte(out, d, b'\n')
}

// Carries out one line: writes its listing, if any, and its A line. How many bytes.
pub fn carry_out(store: &mut [u8], line: &[u8], path: &mut [u8], out: &mut [u8]) -> usize
    requires { (192 ≤ length path.old) × (16448 ≤ length out.old) }
    ensures { Carried (line.now ∷ []) store.old out.old result store.new out.new }
{
    let Some(read) = script::read_line(line, path) else {
        return put_unread(out);
    };
    let n = 3 * read.steps;
    let Done { answer, wrote } = calls::perform(store, read, line, &path[..n], out);
    let (number, count) = told(answer);
    put_answer(out, wrote, number, count as u32)
}
