// Runs the trace on each file of data/ that the arguments name, and writes the file's name and then its output.
#![tactic(auto)]

use std::env::{Env, FillError};
use std::fs::File;
use std::io;
use std::io::Write;
use streams::trace_all;

// The longest name that a file can be opened by.
const LONGEST_NAME: usize = 4096;

// Opens the file of this name, which is text.
fn open(rt: &HostRuntime, name: &[u8]) -> Option<File> {
    let path = str::from_utf8(name).ok()?;
    File::open(rt, path).ok()
}

// The name and the output of the file of this name.
fn run_vector(rt: &HostRuntime, name: &[u8]) -> io::Result<()> {
    let mut stdout = rt.stdout();
    stdout.write_all(b"# ")?;
    stdout.write_all(name)?;
    stdout.write_all(b"\n")?;
    match open(rt, name) {
        Some(mut file) => Ok(trace_all(&mut file, &mut stdout)?),
        None => stdout.write_all(b"no such file\n"),
    }
}

fn main(rt: HostRuntime) -> io::Result<()> {
    let mut name = [0; LONGEST_NAME];
    // std's `env::args` copies them into a heap, and the project's rule is fixed memory: one buffer holds one name at a time.
    for i in 1..usize::MAX {
        match rt.arg(i, &mut name) {
            Ok(n) => run_vector(&rt, &name[..n])?,
            // No file has a name as long as that.
            Err(FillError::TooLong) => run_vector(&rt, b"")?,
            Err(FillError::NotPresent) => break,
        }
    }
    Ok(())
}
