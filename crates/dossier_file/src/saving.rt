// Saving: a new file beside the old one, synced and then renamed, so that the old store or the new one is there at any moment.
ghost use Rattle.std.specs.Prelude.{◌≡◌, true, ◌≤◌, length, ◌∷◌, ◌++◌};
ghost use Rattle.std.specs.Fmt.InlineText.{inline_text};
ghost use Rattle.model.specs.Store.{empty_store};
ghost use Rattle.console.specs.Turns.{Ran};

use crate::{asking, finding, telling};
use file_names::about;
use file_names::about::{Known, Rights};
use std::fmt::{InlineText, Write as _};
use std::fs::{File, OpenOptions, Permissions};
use std::io::{Error, ErrorKind, Write};
use std::os::unix::fs::{OpenOptionsExt, PermissionsExt, fchown};
use std::random::RandomSource;
use std::rt::HostRuntime;
use std::{fs, io};

// How many names are tried for a new file, and the system's number for a name that is taken.
const NAMES: u32 = 238328;

const NAME_TAKEN: i32 = 17;

// A new file beside the store's, and its name.
#[derive(Drop)]
struct New {
    file: File,
    name: InlineText<4096>,
}

// Why a store could not be saved: the file is not the one that was read any more, or the system's error.
#[derive(Drop)]
enum Unsaved {
    Changed,
    Failed(Error),
}

impl From<Error> for Unsaved {
    fn from(error: Error) -> Unsaved {
        Unsaved::Failed(error)
    }
}

// Saves a store where there was no file, and says that it was made. It is what a whole script's lines leave of the empty store.
pub fn save_new(rt: &HostRuntime, name: &str, store: &[u8])
    requires name_len_bound { (length name.now ≤ 4088) × (length store.now ≡ 41088) }
    requires ran { Ran true empty_store store.now }
{
    if save(rt, name, store, None) {
        telling::made(rt, name);
    }
}

// Saves a store if it is not as it was before and its file may be written. It is what a whole script's lines leave of the one before.
pub fn save_over(rt: &HostRuntime, name: &str, store: &[u8], before: &[u8], read: Known)
    requires name_len_bound { (length name.now ≤ 4088) × (length store.now ≡ 41088) }
    requires ran { Ran true before.now store.now }
{
    if store == before {
        return;
    }
    match asking::may_be_written(rt, name) {
        Ok(()) => {
            save(rt, name, store, Some(read));
        }
        Err(error) => telling::not_saved(rt, name, error),
    }
}

// Saves a store, by a new file beside the one that was read, of which this is known. Yields whether it was saved; if not, says so. A
// bool and no Result: the error is told here, and who calls needs to know only whether to say that a store was made.
fn save(rt: &HostRuntime, name: &str, store: &[u8], read: Option<Known>) -> bool
    requires { (length name.now ≤ 4088) × (length store.now ≡ 41088) }
{
    match make(rt, name) {
        Ok(new) => replace(rt, new, name, store, read),
        Err(error) => {
            telling::not_saved(rt, name, error);
            false
        }
    }
}

// Makes the new file: its name is the store's, and behind it a dot and six letters. Where a file has that name, other letters are tried.
fn make(rt: &HostRuntime, name: &str) -> io::Result<New>
    requires { length name.now ≤ 4088 }
{
    for _turn in 0..NAMES {
        let new = new_name(name, letters(rt)?.as_str());
        match create(rt, new.as_str()) {
            Ok(file) => return Ok(New { file, name: new }),
            Err(error) if error.kind() == ErrorKind::AlreadyExists => {}
            Err(error) => return Err(error),
        }
    }
    Err(Error::from_raw_os_error(NAME_TAKEN))
}

// Six letters by chance.
fn letters(rt: &HostRuntime) -> io::Result<InlineText<6>> {
    let mut bytes = [0u8; 6];
    rt.fill_bytes(&mut bytes)?;
    let mut text = InlineText::new();
    for byte in bytes {
        let _ = text.write_char(letter(byte));
    }
    Ok(text)
}

// A letter or a digit for a byte.
fn letter(byte: u8) -> char {
    let n = byte % 62;
    if n < 26 {
        return char::from(b'a' + n);
    }
    if n < 52 {
        return char::from(b'A' + (n - 26));
    }
    char::from(b'0' + (n - 52))
}

// The name of a new file beside the store's: a dot and the letters stand behind the store's name.
fn new_name(name: &str, letters: &str) -> InlineText<4096>
    requires name_len_bound { length name.now ≤ 4088 }
    requires letters_len_bound { length letters.now ≤ 6 }
    ensures { inline_text result ≡ name.now ++ 46 ∷ letters.now }
{
    let mut new = InlineText::new();
    let _ = new.write_str(name);
    let _ = new.write_str(".");
    let _ = new.write_str(letters);
    new
}

// Makes a file of this name, which no file has, for its owner alone.
fn create(rt: &HostRuntime, name: &str) -> io::Result<File> {
    OpenOptions::new()
        .read(true)
        .write(true)
        .create_new(true)
        .mode(0o600)
        .open(rt, name)
}

// Puts the new file into the old one's place. Where that fails the new file is taken away and the old one stays. Yields whether it is
// there; if not, says so. A bool and no Result, as of `save`: the new file is taken away after the error is told.
fn replace(rt: &HostRuntime, new: New, name: &str, store: &[u8], read: Option<Known>) -> bool
    requires { length name.now ≤ 4088 }
{
    let New { file, name: text } = new;
    let new_name = text.as_str();
    if let Err(why) = put(rt, file, new_name, name, store, read) {
        match why {
            Unsaved::Changed => telling::changed(rt, name),
            Unsaved::Failed(error) => telling::not_saved(rt, name, error),
        }
        let _ = fs::remove_file(rt, new_name);
        return false;
    }
    sync_folder(rt, name);
    true
}

// Fills the new file and gives it the store's name, if that is still borne by the file that was read.
fn put(
    rt: &HostRuntime,
    file: File,
    new: &str,
    name: &str,
    store: &[u8],
    read: Option<Known>,
) -> Result<(), Unsaved> {
    fill(file, store, about::rights_beside(read))?;
    check_as_read(rt, name, read)?;
    fs::rename(rt, new, name)?;
    Ok(())
}

// Writes the store to the new file, gives it its rights, waits until both have reached the device, and closes it.
fn fill(mut file: File, store: &[u8], rights: Rights) -> io::Result<()> {
    file.write_all(store)?;
    set_rights(&file, rights)?;
    file.sync_all()
}

// Sets a new file's owner, group and mode. Only root can make it another owner's, so this may fail; the group has to be kept, since
// the mode speaks of it.
fn set_rights(file: &File, rights: Rights) -> io::Result<()> {
    if fchown(file, rights.owner, rights.group).is_err() {
        fchown(file, None, rights.group)?;
    }
    file.set_permissions(Permissions::from_mode(rights.mode))
}

// Whether the name is still borne by the file that was read, as it was then, or by none where there was none. If not, why: the file is
// another, or the system did not tell which it is.
fn check_as_read(rt: &HostRuntime, name: &str, read: Option<Known>) -> Result<(), Unsaved> {
    if asking::is_link(rt, name) || !about::same(finding::look(rt, name)?, read) {
        return Err(Unsaved::Changed);
    }
    Ok(())
}

// Waits until the new name has reached the device. Where that cannot be had, says so.
fn sync_folder(rt: &HostRuntime, name: &str) {
    if let Err(error) = sync(rt, name) {
        telling::not_synced(rt, name, error);
    }
}

// Opens the folder and waits until it has reached the device.
fn sync(rt: &HostRuntime, name: &str) -> io::Result<()> {
    let folder = finding::open_folder(rt, name)?;
    folder.sync_all()
}
