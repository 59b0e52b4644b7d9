// The seven calls and the migration, executed: reads records, carries out each on one store, and writes what they answer.
// tools/call_cases.py makes the records and the output that they must give.
#![tactic(auto)]

mod fields;
mod run;
mod show;

use fields::Record;
use std::io;
use std::io::{Read, Write};

// What the records are carried out with: the store, the output of a call, and room for a second text.
#[derive(Drop)]
struct Room {
    store: [u8; 42372],
    output: [u8; 65536],
    second: [u8; 65535],
}

// Carries out the records until the input ends. By a count of turns: no bound is known by which an input ends.
fn main(rt: HostRuntime) -> io::Result<()> {
    let mut room = Room {
        store: [0u8; 42372],
        output: [0u8; 65536],
        second: [0u8; 65535],
    };
    for _turn in 0..u64::MAX {
        if !room.turn(&mut rt.stdin(), &mut rt.stdout())? {
            return Ok(());
        }
    }
    Ok(())
}

impl Room {
    // Reads a record and carries it out: whether there was one.
    fn turn<R: Read, W: Write>(&mut self, reader: &mut R, writer: &mut W) -> io::Result<bool> {
        let mut head = [0u8; 16];
        if reader.read_exact(&mut head).is_err() {
            return Ok(false);
        }
        let mut first = [0u8; 255];
        self.texts(reader, writer, &head, &mut first)?;
        Ok(true)
    }

    // Reads the two texts of a record, whose lengths the head gives, and carries it out. A text that the input breaks off is carried
    // out as far as it came.
    fn texts<R: Read, W: Write>(
        &mut self,
        reader: &mut R,
        writer: &mut W,
        head: &[u8; 16],
        first: &mut [u8; 255],
    ) -> io::Result<()> {
        let m = fields::first_length(head);
        let n = fields::second_length(head);
        let _ = reader.read_exact(&mut first[..m]);
        let _ = reader.read_exact(&mut self.second[..n]);
        let record = Record {
            head,
            first: &first[..m],
            second: &self.second[..n],
        };
        run::carry_out(writer, &mut self.store, &mut self.output, record)
    }
}
