// The files that a program's arguments name, for the programs that run cases.
// In order: a file that does not open; one file; all of them.
// Not here: what is done with a file, which the caller gives. No contract can say which arguments there are, what a
// file holds, nor what is written; so none says more than that the caller's closure may be called.

use std::env::{Env, FillError};
use std::fmt::InlineText;
use std::fs::File;
use std::io;

// A line on standard error: the path, and why it did not open.
fn fail(rt: &HostRuntime, path: &[u8], error: io::Error) -> io::Result<()> {
    let text = InlineText::<256>::of(error);
    let said = text.as_str();
    let why = match said.split_once(" (os error ") {
        Some((why, _)) => why,
        None => said,
    };
    rt.stderr().write_all(path)?;
    eprintln!(rt; ": {why}")
}

fn open(rt: &HostRuntime, path: &[u8]) -> io::Result<File> {
    match std::str::from_utf8(path) {
        Ok(name) => File::open(rt, name),
        Err(_) => Err(io::Error::from(io::ErrorKind::InvalidFilename)),
    }
}

// The path on a line of its own, and then what `answer` does with the file.
fn named<F: Fn(File) -> io::Result<()>>(rt: &HostRuntime, path: &[u8], answer: &F) -> io::Result<()>
    requires { F.IsAlwaysCallable answer.now }
{
    rt.write_all(b"== ")?;
    rt.write_all(path)?;
    rt.write_all(b"\n")?;
    match open(rt, path) {
        Ok(file) => answer(file),
        Err(e) => fail(rt, path, e),
    }
}

// Each file that an argument names, in order, until `answer` or a write fails. A file that does not open gets a line
// on standard error, and the next one is taken. An argument of more bytes than a path may have is an empty name.
// std's `args` would refuse them all where one is not UTF-8.
pub fn each<F: Fn(File) -> io::Result<()>>(rt: &HostRuntime, answer: F) -> io::Result<()>
    requires { F.IsAlwaysCallable answer }
{
    let mut path = [0u8; 4096];
    for i in 1..usize::MAX {
        let length = match rt.arg(i, &mut path) {
            Ok(n) => n,
            Err(FillError::TooLong) => 0,
            Err(FillError::NotPresent) => break,
        };
        named(rt, &path[..length], &answer)?;
    }
    Ok(())
}
