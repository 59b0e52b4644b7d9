// Files found by their names: the folder that a file stands in, and the file that bears a name now.
use crate::asking;
use file_names::about::Known;
use std::fs::File;
use std::io;
use std::io::{Error, ErrorKind};
use std::rt::HostRuntime;

// Whether a file that could not be opened, by this error, is missing and can be made: its folder can be opened. If not, why.
pub fn can_be_made(rt: &HostRuntime, name: &str, error: Error) -> io::Result<()> {
    if error.kind() != ErrorKind::NotFound {
        return Err(error);
    }
    open_folder(rt, name)?;
    Ok(())
}

// Opens the folder that a file of this name stands in.
pub fn open_folder(rt: &HostRuntime, name: &str) -> io::Result<File> {
    match file_names::last_slash(name.as_bytes()) {
        None => File::open(rt, "."),
        Some(0) => File::open(rt, "/"),
        Some(at) => File::open(rt, &name[..at]),
    }
}

// Looks which file bears the name now, if one does.
pub fn look(rt: &HostRuntime, name: &str) -> io::Result<Option<Known>> {
    match File::open(rt, name) {
        Ok(file) => Ok(Some(asking::known_of(&file)?)),
        Err(error) if error.kind() == ErrorKind::NotFound => Ok(None),
        Err(error) => Err(error),
    }
}
