// What is written of a call and of the store.
ghost use Rattle.std.specs.Prelude.{◌≡◌, ◌*◌, ◌≤◌, ◌<◌, length};

use dossier_grade::Even;
use promise::Refusal;
use std::io;
use std::io::Write;

// The digits of a byte.
const DIGITS: [u8; 16] = *b"0123456789abcdef";

// A text, as it is.
pub fn text<W: Write>(writer: &mut W, text: &[u8]) -> io::Result<()> {
    writer.write_all(text)
}

// A text, as a line.
pub fn line<W: Write>(writer: &mut W, text: &[u8]) -> io::Result<()> {
    writer.write_all(text)?;
    writer.write_all(b"\n")
}

// A call's letter and what it answers: 0 and its count, or the number of its refusal and 0.
pub fn answer<W: Write>(
    writer: &mut W,
    letter: &[u8],
    done: Result<usize, Refusal>,
) -> io::Result<()> {
    writer.write_all(letter)?;
    match done {
        Ok(count) => writeln!(writer, " 0 {count}"),
        Err(refusal) => writeln!(writer, " {} 0", u32::from(refusal)),
    }
}

// What an even grade answers: 0, the step and the remainder, or the number of its refusal, 0 and 0.
pub fn grade<W: Write>(writer: &mut W, done: Result<Even, Refusal>) -> io::Result<()> {
    match done {
        Ok(even) => writeln!(writer, "G 0 {} {}", even.step, even.remainder),
        Err(refusal) => writeln!(writer, "G {} 0 0", u32::from(refusal)),
    }
}

// The store's partitions, and what stands behind them.
pub fn store<W: Write>(writer: &mut W, store: &[u8; 42372]) -> io::Result<()> {
    for (i, part) in store.chunks_exact(1284).enumerate() {
        partition(writer, i, part)?;
    }
    Ok(())
}

// Partition i, unless it is empty: its number and its bytes up to the last that is not 0.
fn partition<W: Write>(writer: &mut W, i: usize, part: &[u8]) -> io::Result<()>
    requires { length part.now ≡ 1284 }
{
    let n = used(part);
    if n == 0 {
        return Ok(());
    }
    write!(writer, "S {i} ")?;
    hex(writer, &part[..n])
}

// How many bytes there are up to the last that is not 0.
fn used(s: &[u8]) -> usize
    ensures { result ≤ length s.now }
{
    s.iter()
        .rposition(|byte| *byte != 0)
        .map_or(0, |last| last + 1)
}

// Up to 1284 bytes as a line of two digits each. Not by `{:02x}`: each byte would be a write of its own.
fn hex<W: Write>(writer: &mut W, s: &[u8]) -> io::Result<()>
    requires { length s.now ≤ 1284 }
{
    let mut text = [0u8; 2568];
    for (pair, byte) in text.chunks_exact_mut(2).zip(s) {
        pair[0] = DIGITS[usize::from(*byte / 16)];
        pair[1] = DIGITS[usize::from(*byte % 16)];
    }
    line(writer, &text[..2 * s.len()])
}
