// Scripts executed as the runner executes them: one file for each argument, each from the empty store.
#![tactic(auto)]

use console::failing::tell_failed;
use std::env::FillError;
use std::fs::File;
use std::io::Write;
use std::rt::Env;

// The scripts of all arguments. By a count: no bound is known by which the arguments end.
fn main(rt: HostRuntime) {
    for i in 1..usize::MAX {
        if !one(&rt, i) {
            return;
        }
    }
}

// The script that argument i names: whether there is such an argument. One that no path can be as long as names no file.
fn one(rt: &HostRuntime, i: usize) -> bool {
    let mut space = [0u8; 4096];
    let length = match rt.arg(i, &mut space) {
        Ok(length) => length,
        Err(FillError::NotPresent) => return false,
        Err(FillError::TooLong) => 0,
    };
    named(rt, &space[..length]);
    true
}

// The script of this name.
fn named(rt: &HostRuntime, name: &[u8]) {
    match str::from_utf8(name) {
        Ok(path) => carry_out(rt, path),
        Err(_) => tell_no_text(rt, name),
    }
}

// The script in the file at this path.
fn carry_out(rt: &HostRuntime, path: &str) {
    match File::open(rt, path) {
        Ok(mut file) => {
            let mut store = [0u8; 41088];
            let _ = console::run(&mut file, &mut rt.stdout(), &mut store);
        }
        Err(error) => tell_failed(&mut rt.stderr(), path.as_bytes(), error),
    }
}

// A name that is no text in UTF-8 names no file for the library.
fn tell_no_text(rt: &HostRuntime, name: &[u8]) {
    let mut errors = rt.stderr();
    let _ = errors.write_all(name);
    let _ = errors.write_all(b": is no text in UTF-8\n");
}
