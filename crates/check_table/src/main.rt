#![tactic(auto)]
// Checks the table in a file against the request in another: `check_table REQUEST TABLE` prints `accepted` or `refused N`. A file that
// cannot be read is named on standard error.
use refusal::Refusal;
use std::env::FillError;
use std::fs::File;
use std::io::{ErrorKind, Read};
use std::rt::{Env, Files};
use std::{io, str};

// The system's numbers for an argument that is missing and for one that is too long.
const EINVAL: i32 = 22;

const ENAMETOOLONG: i32 = 36;

// The path that argument i gives. It must be text.
fn path<R: Env + AllocGlobal>(rt: &R, i: usize) -> io::Result<String> {
    let mut bytes = [0u8; 4096];
    match rt.arg(i, &mut bytes) {
        Ok(length) => match str::from_utf8(&bytes[..length]) {
            Ok(text) => Ok(String::from_str(rt.alloc(), text)?),
            Err(_) => Err(io::Error::from(ErrorKind::InvalidFilename)),
        },
        Err(FillError::NotPresent) => Err(io::Error::from_raw_os_error(EINVAL)),
        Err(FillError::TooLong) => Err(io::Error::from_raw_os_error(ENAMETOOLONG)),
    }
}

// Puts the bytes of a file, at most so many, behind those that `bytes` has.
fn read_path(rt: &impl Files, path: &str, most: u64, bytes: &mut Vec<u8>) -> io::Result<usize> {
    File::open(rt, path)?.take(most).read_to_end(bytes)
}

// The bytes of the file that argument i names, at most so many: a longer file is neither a request nor a table.
fn read_file<R: Env + Files + Eprint + AllocGlobal>(
    rt: &R,
    i: usize,
    most: u64,
) -> Option<Vec<u8>> {
    let path = match path(rt, i) {
        Ok(path) => path,
        Err(error) => {
            streams::fail(rt, "usage: check_table REQUEST TABLE", error);
            return None;
        }
    };
    let mut bytes = Vec::new(rt.alloc());
    let read = read_path(rt, path.as_str(), most, &mut bytes);
    if !streams::was_read(rt, read, path.as_str()) {
        return None;
    }
    Some(bytes)
}

fn print<R: Print + Eprint + AllocGlobal>(rt: &R, checked: Result<(), Refusal>) {
    match checked {
        Ok(()) => {
            streams::print(rt, b"accepted\n");
        }
        Err(refusal) => {
            let mut line = [0u8; 4096];
            let end = plan_listing::refused(refusal.number(), &mut line);
            streams::print(rt, &line[..end]);
        }
    }
}

fn main(rt: HostRuntime) {
    let Some(request) = read_file(&rt, 1, 4096) else {
        return;
    };
    let Some(table) = read_file(&rt, 2, 65536) else {
        return;
    };
    print(&rt, checker::check(&request, &table));
}
