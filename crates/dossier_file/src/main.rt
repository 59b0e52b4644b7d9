// A program that keeps a store in a file. Argument 1 names the file, standard input is a script, and what the script's calls print
// goes to standard output. A file that is missing is made; one of another length than a store's is never written.
#![tactic(auto)]

mod asking;
mod finding;
mod saving;
mod telling;

ghost use Rattle.std.specs.Prelude.{◌≡◌, ◌≤◌, length, is_ok, IfOk};
ghost use Rattle.model.specs.Store.{empty_store};
ghost use Rattle.console.specs.Turns.{Ran};

use console::BrokenOff;
use file_names::about::Known;
use std::env::FillError;
use std::fs::File;
use std::io;
use std::io::{Error, Read};
use std::rt::Env;

// The system's number for an argument that is not valid.
const INVALID: i32 = 22;

// How many bytes were read, and by what error a read failed, if one did. No Result: the bytes that came before a failed read count too.
#[derive(Drop)]
struct Filled {
    count: usize,
    failed: Option<Error>,
}

// Takes the one argument.
fn main(rt: HostRuntime) {
    if !has_argument(&rt, 1) || has_argument(&rt, 2) {
        telling::usage(&mut rt.stderr());
        return;
    }
    take(&rt);
}

// Whether there is an argument i.
fn has_argument(rt: &HostRuntime, i: usize) -> bool {
    let mut space = [0u8; 1];
    !matches!(rt.arg(i, &mut space), Err(FillError::NotPresent))
}

// Takes the word. It leaves room for what a new file's name has more.
fn take(rt: &HostRuntime) {
    let mut space = [0u8; 4088];
    match rt.arg(1, &mut space) {
        Ok(n) => heed(rt, &space[..n]),
        Err(_) => telling::no_word(rt),
    }
}

// Gives help where it is asked for. Any other word that begins with a dash is refused, since it might be meant for an option; an
// empty one names no file, and neither does one that is no text.
fn heed(rt: &HostRuntime, word: &[u8])
    requires { length word.now ≤ 4088 }
{
    if file_names::asks_help(word) {
        telling::help(rt);
        return;
    }
    if file_names::is_dashed(word) {
        telling::dashed(rt, word);
        return;
    }
    if word.len() == 0 {
        telling::empty_word(rt);
        return;
    }
    match str::from_utf8(word) {
        Ok(name) => start(rt, name),
        Err(_) => telling::no_text(rt, word),
    }
}

// Opens the file of this name. A symbolic link is refused, since saving would put a file in the link's place and leave the file that it
// leads to.
fn start(rt: &HostRuntime, name: &str)
    requires { length name.now ≤ 4088 }
{
    if asking::is_link(rt, name) {
        telling::is_link(rt, name);
        return;
    }
    match File::open(rt, name) {
        Ok(file) => start_with(rt, file, name),
        Err(error) => start_without(rt, name, error),
    }
}

// The file could not be opened: it is missing and can be made, or the error is told.
fn start_without(rt: &HostRuntime, name: &str, error: Error)
    requires { length name.now ≤ 4088 }
{
    match finding::can_be_made(rt, name, error) {
        Ok(()) => begin_empty(rt, name),
        Err(error) => telling::failed(rt, name, error),
    }
}

// An open file is read if the system says that it is a regular one. The bytes have room for one more than a store has, so that a longer file is seen.
fn start_with(rt: &HostRuntime, file: File, name: &str)
    requires { length name.now ≤ 4088 }
{
    match asking::known_of(&file) {
        Ok(known) if asking::is_regular(known.mode) => {
            let mut bytes = [0u8; 41089];
            read(rt, file, name, &mut bytes, known);
        }
        _ => telling::is_irregular(rt, name),
    }
}

// Reads the file, to its end or as far as the bytes have room, and goes on with what came. Where a read fails, says so.
fn read(rt: &HostRuntime, file: File, name: &str, bytes: &mut [u8], known: Known)
    requires { length name.now ≤ 4088 }
{
    match contents(file, bytes) {
        Ok(n) => go_on(rt, name, &mut bytes[..n], known),
        Err(error) => telling::failed(rt, name, error),
    }
}

// Reads a file, to its end or as far as the bytes have room, and closes it. Yields how many bytes came.
fn contents(mut file: File, bytes: &mut [u8]) -> io::Result<usize>
    ensures { IfOk result (λ n. n ≤ length bytes.new) }
{
    let filled = read_full(&mut file, bytes);
    if filled.count < bytes.len() {
        check_end(&mut file, filled.failed)?;
    }
    Ok(filled.count)
}

// Reads until the bytes are full, the file ends or a read fails.
fn read_full(file: &mut File, bytes: &mut [u8]) -> Filled
    ensures { result.count ≤ length bytes.new }
{
    let mut count = 0;
    // A `while`: how far a read comes is known only when it is done.
    while count < bytes.len() {
        match file.read(&mut bytes[count..]) {
            Ok(0) => break,
            Ok(n) => count += n,
            Err(error) => {
                return Filled {
                    count,
                    failed: Some(error),
                };
            }
        }
    }
    Filled {
        count,
        failed: None,
    }
}

// Whether no more of a file is to come: one more read gives nothing, and does not fail. If there is more, a read before has failed, or
// the file was made longer meanwhile.
fn check_end(file: &mut File, failed: Option<Error>) -> io::Result<()> {
    let mut more = [0u8; 1];
    if file.read(&mut more)? == 0 {
        return Ok(());
    }
    Err(failed.unwrap_or(Error::from_raw_os_error(INVALID)))
}

// Goes on with what is in the file: a store, or bytes of another length, which are never saved.
fn go_on(rt: &HostRuntime, name: &str, bytes: &mut [u8], known: Known)
    requires { length name.now ≤ 4088 }
{
    if bytes.len() == 41088 {
        go_on_store(rt, name, bytes, known);
        return;
    }
    let _ = carry_out(rt, name, bytes);
}

// A missing file begins as the empty store, which is zeros.
fn begin_empty(rt: &HostRuntime, name: &str)
    requires { length name.now ≤ 4088 }
{
    let mut store = [0u8; 41088];
    begin(rt, name, &mut store);
}

// The script is carried out from the empty store, which is saved in any case.
fn begin(rt: &HostRuntime, name: &str, store: &mut [u8])
    requires { (length name.now ≤ 4088) × (store.old ≡ empty_store) }
{
    if carry_out(rt, name, store).is_ok() {
        saving::save_new(rt, name, store);
    }
}

// A store in a file: a copy tells whether it has changed.
fn go_on_store(rt: &HostRuntime, name: &str, store: &mut [u8], known: Known)
    requires { (length name.now ≤ 4088) × (length store.old ≡ 41088) }
{
    let mut before = [0u8; 41088];
    change(rt, name, store, &mut before, known);
}

// The script is carried out on a store, and it is saved where it has changed.
fn change(rt: &HostRuntime, name: &str, store: &mut [u8], before: &mut [u8; 41088], known: Known)
    requires { (length name.now ≤ 4088) × (length store.old ≡ 41088) }
{
    before.copy_from_slice(store);
    if carry_out(rt, name, store).is_ok() {
        saving::save_over(rt, name, store, before, known);
    }
}

// Carries out the script on the bytes as they are. Where that is not done to the end, says so.
fn carry_out(rt: &HostRuntime, name: &str, bytes: &mut [u8]) -> Result<(), BrokenOff>
    ensures { Ran (is_ok result) bytes.old bytes.new }
{
    let done = console::run(&mut rt.stdin(), &mut rt.stdout(), bytes);
    if done.is_err() {
        telling::broken_off(rt, name);
    }
    done
}
