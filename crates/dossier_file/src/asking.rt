// What the system is asked of files: whether a name is a link's, whether a file may be written, and what is known of an open file. These
// functions hand on what it says, so they promise nothing of it.
use file_names::about::{Known, Time};
use std::fs::{File, Metadata, OpenOptions};
use std::os::unix::fs::MetadataExt;
use std::rt::HostRuntime;
use std::{fs, io};

// Which bits of a mode tell the kind of file, and what they are of a regular one.
const KIND: u32 = 0o170000;

const REGULAR: u32 = 0o100000;

// Whether the name is a symbolic link's. Where the system does not tell, it is none.
pub fn is_link(rt: &HostRuntime, name: &str) -> bool {
    match fs::symlink_metadata(rt, name) {
        Ok(said) => said.is_symlink(),
        Err(_) => false,
    }
}

// Whether the file of this name may be written: it can be opened for that. No byte of it is changed.
pub fn may_be_written(rt: &HostRuntime, name: &str) -> io::Result<()> {
    OpenOptions::new().write(true).open(rt, name)?;
    Ok(())
}

// What is known of an open file.
pub fn known_of(file: &File) -> io::Result<Known> {
    let said = file.metadata()?;
    Ok(kept_of(&said))
}

// What is kept of what the system said.
fn kept_of(said: &Metadata) -> Known {
    let written = Time {
        seconds: said.mtime(),
        nanoseconds: said.mtime_nsec(),
    };
    let changed = Time {
        seconds: said.ctime(),
        nanoseconds: said.ctime_nsec(),
    };
    Known {
        owner: said.uid(),
        group: said.gid(),
        mode: said.mode(),
        device: said.dev(),
        inode: said.ino(),
        size: said.size().cast_signed(),
        written,
        changed,
    }
}

// Whether a mode is a regular file's, which a folder, a device and a pipe are not.
pub fn is_regular(mode: u32) -> bool {
    mode & KIND == REGULAR
}
