// What is said of a call of the system that failed.
use std::fmt::InlineText;
use std::io::{Error, Write};

// Says what failed, and the system's error, as a line: in the system's words, without the error's number, which the library prints
// behind them. Where it cannot be written nothing is said. No clause: a contract cannot say what a `Write` takes.
pub fn tell_failed<W: Write>(errors: &mut W, what: &[u8], error: Error) {
    let text = InlineText::<256>::of(error);
    let said = text.as_str();
    let words = match said.split_once(" (os error ") {
        Some((words, _)) => words,
        None => said,
    };
    let _ = errors.write_all(what);
    let _ = errors.write_all(b": ");
    let _ = errors.write_all(words.as_bytes());
    let _ = errors.write_all(b"\n");
}
