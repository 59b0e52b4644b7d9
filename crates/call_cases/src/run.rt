// Records carried out.
use crate::fields::Record;
use crate::show;
use promise::Refusal;
use std::io;
use std::io::Write;

// One record, by its first byte: Z clears the store, X corrupts it, S shows it, and the others are of its calls.
pub fn carry_out<W: Write>(
    writer: &mut W,
    store: &mut [u8; 42372],
    output: &mut [u8; 65536],
    record: Record<'_>,
) -> io::Result<()> {
    match record.head[0] {
        b'X' => {
            corrupt(store, record);
            Ok(())
        }
        b'Z' => {
            store.fill(0);
            Ok(())
        }
        b'S' => show::store(writer, store),
        _ => {
            let size = record.store_length(store.len());
            let n = record.output_length(output.len());
            call(writer, &mut store[..size], &mut output[..n], record)
        }
    }
}

// Bytes that come onto the store, as many as it has room for from the offset on.
fn corrupt(store: &mut [u8], record: Record<'_>) {
    let at = record.offset(store.len());
    let n = record.first.len().min(store.len() - at);
    store[at..at + n].copy_from_slice(&record.first[..n]);
}

// A call, on as many bytes of the store and of the output as the head says: the calls have the letters of the runner, M is the view as
// XML, G the even grade and T the XML intake; O is the migration; all else names the case by a line.
fn call<W: Write>(
    writer: &mut W,
    store: &mut [u8],
    output: &mut [u8],
    record: Record<'_>,
) -> io::Result<()> {
    let subject = record.subject();
    let third = record.third();
    let first = record.first;
    let second = record.second;
    match record.head[0] {
        b'V' => view(writer, store, subject, first, output),
        b'M' => markup(writer, store, subject, first, output),
        b'I' => show::answer(
            writer,
            b"I",
            dossier::insert(store, subject, first, third, second),
        ),
        b'U' => show::answer(
            writer,
            b"U",
            dossier::update(store, subject, first, third, second),
        ),
        b'D' => show::answer(writer, b"D", dossier::delete(store, subject, first)),
        b'G' => show::grade(
            writer,
            dossier_grade::grade(store, subject, first, second, third),
        ),
        b'T' => show::answer(
            writer,
            b"T",
            dossier_intake::insert_xml(store, subject, first, second),
        ),
        b'O' => show::answer(
            writer,
            b"O",
            dossier_migrate::migrate(store).map(|mask| mask as usize),
        ),
        _ => show::text(writer, first),
    }
}

// A view into an output of one byte throughout.
fn view<W: Write>(
    writer: &mut W,
    store: &[u8],
    subject: u32,
    path: &[u8],
    output: &mut [u8],
) -> io::Result<()> {
    output.fill(170);
    let done = dossier::view(store, subject, path, output);
    show_written(writer, b"V", done, output)
}

// A view as XML into an output of one byte throughout. XML that was written gets a line's end, since it has none of its own.
fn markup<W: Write>(
    writer: &mut W,
    store: &[u8],
    subject: u32,
    path: &[u8],
    output: &mut [u8],
) -> io::Result<()> {
    output.fill(170);
    let done = dossier_xml::view_xml(store, subject, path, output);
    show_written(writer, b"M", done, output)?;
    if done.is_ok() {
        show::text(writer, b"\n")?;
    }
    Ok(())
}

// What a call answers, and what it wrote into an output of bytes 170; of what it did not write, every byte must be as it was.
fn show_written<W: Write>(
    writer: &mut W,
    letter: &[u8],
    done: Result<usize, Refusal>,
    output: &[u8],
) -> io::Result<()> {
    show::answer(writer, letter, done)?;
    let n = done.unwrap_or(0).min(output.len());
    let (wrote, rest) = output.split_at(n);
    writer.write_all(wrote)?;
    if rest.iter().any(|byte| *byte != 170) {
        show::line(writer, b"written behind what was counted")?;
    }
    Ok(())
}
