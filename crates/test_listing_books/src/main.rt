// Lists each book file that an argument names, after a heading line with its name. A file whose name begins with
// `second-` is a book of the second edition, any other one of the first.
#![tactic(auto)]

use programs::Edition;
use std::env::{Env, FillError};
use std::fs::File;
use std::{fs, io, str};

fn edition_of(name: &[u8]) -> Edition {
    if name.starts_with(b"second-") {
        return Edition::Second;
    }
    Edition::First
}

// Opens the file. A path of `std` is text, so a name that is none is refused.
fn open(rt: &HostRuntime, name: &[u8]) -> io::Result<File> {
    match str::from_utf8(name) {
        Ok(path) => fs::open(rt, path),
        Err(_) => Err(io::Error::from(io::ErrorKind::InvalidInput)),
    }
}

fn list_file(rt: &HostRuntime, name: &[u8]) {
    let _ = rt.write_all(b"== ");
    let _ = rt.write_all(name);
    let _ = rt.write_all(b"\n");
    match open(rt, name) {
        Ok(file) => programs::list_from(rt, file, edition_of(name)),
        Err(error) => {
            let _ = rt.stderr().write_all(name);
            let _ = eprintln!(rt; ": {error}");
        }
    }
}

// Lists the file that argument i names, and says whether there is one. An argument that has no room in the buffer is
// taken for an empty name.
fn list_argument(rt: &HostRuntime, i: usize) -> bool {
    let mut name = [0u8; 4096];
    match rt.arg(i, &mut name) {
        Ok(n) => list_file(rt, &name[..n]),
        Err(FillError::TooLong) => list_file(rt, b""),
        Err(FillError::NotPresent) => return false,
    }
    true
}

fn main(rt: HostRuntime) {
    for i in 1..usize::MAX {
        if !list_argument(&rt, i) {
            break;
        }
    }
}
