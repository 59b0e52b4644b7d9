// A script taken from a reader: its lines are carried out on a lent store, and what they print is written to a writer. What is taken
// in, carried out and printed of a line is proved of crate batch; here lines, pieces and turns follow each other.
#![tactic(auto)]

pub mod failing;
mod space;

ghost use Rattle.std.specs.Prelude.{◌≡◌, ◌+◌, ◌≤◌, length, is_ok, IfOk};
ghost use Rattle.console.specs.Turns.{HandedOn, Stepped, Closed, Turned, Came, Ran};
ghost use Rattle.console.specs.Room.{kept_in, left_in};

use batch::Line;
use space::Room;
use std::io;
use std::io::{Read, Write};

// A script was not carried out to its end: a read of it failed, or a write of what it prints.
#[derive(Clone, Copy, Debug, PartialEq, Eq)]
pub struct BrokenOff;

impl From<io::Error> for BrokenOff {
    fn from(_error: io::Error) -> BrokenOff {
        BrokenOff
    }
}

// Hands bytes on to be written. Yields how many.
fn hand_on<W: Write>(writer: &mut W, part: &[u8]) -> Result<usize, BrokenOff>
    ensures { IfOk result (λ count. count ≡ length part.now) }
{
    writer.write_all(part)?;
    writer.flush()?;
    Ok(part.len())
}

impl Room {
    // Hands on what stands in the output.
    fn empty<W: Write>(&mut self, writer: &mut W) -> Result<(), BrokenOff>
        ensures handed { IfOk result (λ _. HandedOn self.old.out self.old.at self.new.at × (self.new.at ≡ 0)) }
        ensures rest { (self.new.line ≡ self.old.line) × (self.new.out ≡ self.old.out) }
    {
        self.at -= hand_on(writer, &self.out[..self.at])?;
        Ok(())
    }

    // Makes room for the output of one line: where less is left, what stands there is handed on.
    fn make_room<W: Write>(&mut self, writer: &mut W) -> Result<(), BrokenOff>
        ensures handed { IfOk result (λ _. HandedOn self.old.out self.old.at self.new.at × (self.new.at + 16448 ≤ 65536)) }
        ensures rest { (self.new.line ≡ self.old.line) × (self.new.out ≡ self.old.out) }
    {
        if self.at <= 49088 {
            return Ok(());
        }
        self.empty(writer)
    }

    // Takes in an input up to its first line end, if there is room for what it prints. Yields how much of it.
    fn feed_line<W: Write>(
        &mut self,
        writer: &mut W,
        store: &mut [u8],
        input: &[u8],
    ) -> Result<usize, BrokenOff>
        ensures { Stepped result (kept_in self.old) store.old (left_in self.old) input.now (kept_in self.new) store.new (left_in self.new) }
    {
        self.make_room(writer)?;
        let start = self.at;
        let out = &mut self.out[start..];
        let taken = self.line.take_in(store, input, &mut self.path, out);
        self.at = start + taken.wrote;
        Ok(taken.used)
    }

    // Takes in a piece of input, line by line.
    fn feed<W: Write>(
        &mut self,
        writer: &mut W,
        store: &mut [u8],
        input: &[u8],
    ) -> Result<(), BrokenOff>
        ensures { Turned result (kept_in self.old) store.old (left_in self.old) input.now (kept_in self.new) store.new (left_in self.new) }
    {
        let mut from = 0;
        // A `while`: where the next line begins is known only when one has been taken in.
        while from < input.len() {
            from += self.feed_line(writer, store, &input[from..])?;
        }
        Ok(())
    }

    // Takes in a piece of input, and hands on what it prints if it came in short, so that who waits for that need not wait for more input.
    fn take_piece<W: Write>(
        &mut self,
        writer: &mut W,
        store: &mut [u8],
        input: &[u8],
    ) -> Result<(), BrokenOff>
        ensures { Turned result (kept_in self.old) store.old (left_in self.old) input.now (kept_in self.new) store.new (left_in self.new) }
    {
        self.feed(writer, store, input)?;
        if input.len() < 65536 {
            return self.empty(writer);
        }
        Ok(())
    }

    // The end of the input: a last line without a line end is carried out, and what is not yet written is handed on.
    fn close<W: Write>(&mut self, writer: &mut W, store: &mut [u8]) -> Result<(), BrokenOff>
        ensures { Closed result (kept_in self.old) store.old (left_in self.old) store.new (left_in self.new) }
    {
        self.make_room(writer)?;
        let start = self.at;
        let line = &mut self.line;
        let out = &mut self.out[start..];
        let wrote = batch::finish(store, line.text(), &mut self.path, out);
        self.at = start + wrote;
        self.empty(writer)
    }

    // Reads once and takes in what came; at the end of the input, and where the read fails, closes. Yields how many bytes came, none at the
    // end of the input.
    fn turn<R: Read, W: Write>(
        &mut self,
        reader: &mut R,
        writer: &mut W,
        store: &mut [u8],
        input: &mut [u8],
    ) -> Result<usize, BrokenOff>
        ensures { Came result (kept_in self.old) store.old (left_in self.old) input.new (kept_in self.new) store.new (left_in self.new) }
    {
        match reader.read(input) {
            Ok(0) => {
                self.close(writer, store)?;
                Ok(0)
            }
            Ok(n) => {
                self.take_piece(writer, store, &input[..n])?;
                Ok(n)
            }
            Err(_) => {
                let _ = self.close(writer, store);
                Err(BrokenOff)
            }
        }
    }
}

// Carries out a script on a store: the lines come from the reader, piece by piece, until it ends or a read or a write fails. Where a read
// fails, the line begun is carried out as at the end of the input. By a count of turns: no bound is known by which a reader ends, and a
// proof of the end needs one.
pub fn run<R: Read, W: Write>(
    reader: &mut R,
    writer: &mut W,
    store: &mut [u8],
) -> Result<(), BrokenOff>
    ensures { Ran (is_ok result) store.old store.new }
{
    let mut input = [0u8; 65536];
    let mut room = Room {
        line: Line::new(),
        path: [0u8; 192],
        out: [0u8; 65536],
        at: 0,
    };
    for _turn in 0..u64::MAX {
        if room.turn(reader, writer, store, &mut input)? == 0 {
            return Ok(());
        }
    }
    Err(BrokenOff)
}
