// What the program says: all of it goes to standard error, but for the help that is asked for. Where it cannot be written nothing is said.
use console::failing::tell_failed;
use std::io::{Error, Write};
use std::rt::HostRuntime;

// The system's number for a name that is too long.
const NAME_TOO_LONG: i32 = 36;

// Says something of a file, or of a word that was to name one.
fn say(rt: &HostRuntime, name: &[u8], what: &[u8]) {
    let mut errors = rt.stderr();
    let _ = errors.write_all(name);
    let _ = errors.write_all(what);
}

// Says what failed with a file, and the system's error.
fn tell(rt: &HostRuntime, name: &str, what: &[u8], error: Error) {
    let mut errors = rt.stderr();
    let _ = errors.write_all(name.as_bytes());
    tell_failed(&mut errors, what, error);
}

// How the program is called.
pub fn usage<W: Write>(to: &mut W) {
    let _ = to.write_all(b"usage: dossier_file FILE < SCRIPT\n");
}

// The help: how the program is called, and what it does.
pub fn help(rt: &HostRuntime) {
    let mut output = rt.stdout();
    usage(&mut output);
    let _ = output.write_all(
        b"Carries out the script's calls on the store that FILE keeps. A missing file is made.\n",
    );
}

// The word could not be had: it is too long.
pub fn no_word(rt: &HostRuntime) {
    tell(
        rt,
        "",
        b"the file's name",
        Error::from_raw_os_error(NAME_TOO_LONG),
    );
}

// The word is empty.
pub fn empty_word(rt: &HostRuntime) {
    say(rt, b"", b"the file's name is empty\n");
}

// The word begins with a dash, and might be meant for an option.
pub fn dashed(rt: &HostRuntime, word: &[u8]) {
    say(
        rt,
        word,
        b": begins with a dash: for a file of this name write ./",
    );
    say(rt, word, b"\n");
}

// The word is no text, and names no file for the library.
pub fn no_text(rt: &HostRuntime, word: &[u8]) {
    say(rt, word, b": is no text in UTF-8\n");
}

// The file could not be opened or read.
pub fn failed(rt: &HostRuntime, name: &str, error: Error) {
    tell(rt, name, b"", error);
}

// The name is a symbolic link's.
pub fn is_link(rt: &HostRuntime, name: &str) {
    say(
        rt,
        name.as_bytes(),
        b": is a symbolic link: name the file that it leads to\n",
    );
}

// The file is a folder, a device or a pipe.
pub fn is_irregular(rt: &HostRuntime, name: &str) {
    say(rt, name.as_bytes(), b": is no regular file\n");
}

// The script was not carried out to its end.
pub fn broken_off(rt: &HostRuntime, name: &str) {
    say(
        rt,
        name.as_bytes(),
        b": not saved: the script was not carried out to its end\n",
    );
}

// The file is not the one that was read, or one was made where there was none.
pub fn changed(rt: &HostRuntime, name: &str) {
    say(
        rt,
        name.as_bytes(),
        b": not saved: the file was changed meanwhile\n",
    );
}

// The store could not be saved, by the system's error.
pub fn not_saved(rt: &HostRuntime, name: &str, error: Error) {
    tell(rt, name, b": not saved", error);
}

// The store is saved, and its folder could not be synced.
pub fn not_synced(rt: &HostRuntime, name: &str, error: Error) {
    tell(rt, name, b": saved, but its folder is not synced", error);
}

// A missing file was made.
pub fn made(rt: &HostRuntime, name: &str) {
    say(rt, name.as_bytes(), b": a new store was made\n");
}
