// A program as a person runs it: a report over standard input and standard output, a line on standard error
// where a read or a write failed, and how it came to its end.
//
// A program ends with status 0 whatever it has told. `./desk` starts one with a word as its argument
// and a descriptor 3 that it reads afterwards, and there the program says how it ended. Started without a
// word it says nothing: descriptor 3 may then be anybody's.
#![tactic(auto)]

use report_run::Failure;
use reporting::Stage;
use std::env::FillError;
use std::fs::{File, OpenOptions};
use std::io::{ErrorKind, Write};
use std::rt::{Env, HostRuntime};
use std::{fs, io};

// Where a program says how it came to its end: descriptor 3, which has no other name.
const END: &str = "/proc/self/fd/3";

// The name of standard output, whatever that is.
const OUTPUT: &str = "/proc/self/fd/1";

// Opens what a descriptor of the program's own is open on, to write behind all that stands there.
fn open_again(rt: &HostRuntime, descriptor: &str) -> io::Result<File> {
    OpenOptions::new().append(true).open(rt, descriptor)
}

// Room for the words about a failure.
const WORDS: usize = 64;

// Was the program started with a word?
fn has_word(rt: &HostRuntime) -> bool {
    !matches!(rt.arg(1, &mut [0u8; 1]), Err(FillError::NotPresent))
}

// Says how the program came to its end, where it was asked to.
fn say_end(rt: &HostRuntime, end: &[u8]) {
    if has_word(rt) {
        if let Ok(mut file) = open_again(rt, END) {
            let _ = report_run::write_all(&mut file, end);
        }
    }
}

// Says what failed, in one line. What failed goes out in one write, so that no other program's words come
// into the middle of it.
fn say_failure(rt: &HostRuntime, name: &[u8], failure: Failure) {
    let mut line = [0u8; WORDS];
    let mut rest = &mut line[..];
    let _ = writeln!(rest, ": {failure}");
    let end = WORDS.saturating_sub(rest.len());
    let mut to = rt.stderr();
    let _ = report_run::write_all(&mut to, name);
    let _ = report_run::write_all(&mut to, &line[..end]);
}

// Is standard output a file?
fn is_file(rt: &HostRuntime) -> bool {
    fs::metadata(rt, OUTPUT).is_ok_and(|output| output.is_file())
}

// Has the device of a file taken all that was written? Some files have none.
fn is_taken(file: &File) -> bool {
    match file.sync_data() {
        Ok(()) => true,
        Err(error) => error.kind() == ErrorKind::InvalidInput,
    }
}

// Sees what was written to its device, where standard output is a file: some devices tell only then that a
// write failed. Nothing closes standard output here, so the device is asked; of anything else what the
// writes answered stands.
fn settle(rt: &HostRuntime) -> Result<(), Failure> {
    if is_file(rt) {
        if let Ok(file) = open_again(rt, OUTPUT) {
            if !is_taken(&file) {
                return Err(Failure::Unwritten);
            }
        }
    }
    Ok(())
}

// Writes the report, and sees it to its device. Answers whether anything was refused.
fn report(rt: &HostRuntime, stage: Stage) -> Result<bool, Failure> {
    let is_refused = report_run::run(rt.stdin(), rt.stdout(), stage)?;
    settle(rt)?;
    Ok(is_refused)
}

// Runs a report from the stage that its program begins in; `name` is the program's. Says how it came to its
// end: 0 nothing refused, 1 something refused, 2 a failure.
pub fn run(rt: &HostRuntime, stage: Stage, name: &[u8]) {
    match report(rt, stage) {
        Ok(false) => say_end(rt, b"0\n"),
        Ok(true) => say_end(rt, b"1\n"),
        Err(failure) => {
            say_failure(rt, name, failure);
            say_end(rt, b"2\n");
        }
    }
}
