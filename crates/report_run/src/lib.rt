// A report over an input and an output, as a program has them.
//
// All that is told is told by the crate `reporting`, whose run is proved to say the report of the whole
// input in whatever pieces it is fed; what stands here only moves bytes, and stops where they do not move.
#![tactic(auto)]

ghost use Rattle.std.specs.Prelude.{◌≤◌, length};
ghost use Rattle.report_lines.specs.Says.{record_most};

use reporting::{Run, Stage};
use std::fmt;
use std::io::{Read, Write};
use std::rt::{Stdin, Stdout};

// How many bytes are read at a time, and written at most. A record is told in less than a tenth of a
// microsecond, so that with a quarter of this the calls of the system make a run a tenth longer.
const PIECE: usize = 262144;

// What keeps a report from its end.
#[derive(Clone, Copy, Debug, PartialEq, Eq)]
pub enum Failure {
    // a read failed: the lines that had ended are told, and nothing after them
    Unread,
    // a write failed
    Unwritten,
}

impl fmt::Display for Failure {
    fn fmt<W: fmt::Write>(&self, f: &mut fmt::Formatter<W>) -> fmt::Result {
        match self {
            Failure::Unread => write!(f, "the input could not be read"),
            Failure::Unwritten => write!(f, "the output could not be written"),
        }
    }
}

// Writes all of the bytes, or stops at the first write that takes nothing or fails, when some of them may have
// been written. Not std's, which tries a write again that a signal interrupts: who lends the output has then
// asked for its end.
pub fn write_all<W: Write>(to: &mut W, bytes: &[u8]) -> Result<(), Failure> {
    let mut rest = bytes;
    while !rest.is_empty() {
        let count = to.write(rest).map_err(|_| Failure::Unwritten)?;
        if count == 0 {
            return Err(Failure::Unwritten);
        }
        rest = &rest[count..];
    }
    Ok(())
}

// Feeds a piece to the run, and writes what it says. A turn takes what `out` has room for, so that there is
// nothing to count.
fn feed_all<W: Write>(to: &mut W, run: Run, piece: &[u8], out: &mut [u8]) -> Result<Run, Failure>
    requires { record_most ≤ length out.old }
{
    let mut now = run;
    let mut rest = piece;
    while !rest.is_empty() {
        let fed = reporting::feed(now, rest, out);
        write_all(to, &out[..fed.written])?;
        now = fed.run;
        rest = &rest[fed.taken..];
    }
    Ok(now)
}

// Moves the input piece by piece, to its end or until a read or a write fails. A proved loop has to end,
// and nothing says that an input does: no input has as many pieces as are counted here.
fn move_all<R: Read, W: Write>(
    from: &mut R,
    to: &mut W,
    run: Run,
    buffer: &mut [u8],
    out: &mut [u8],
) -> Result<Run, Failure>
    requires { record_most ≤ length out.old }
{
    let mut now = run;
    for _ in 0..u64::MAX {
        let count = from.read(buffer).map_err(|_| Failure::Unread)?;
        if count == 0 {
            break;
        }
        now = feed_all(to, now, &buffer[..count], out)?;
    }
    Ok(now)
}

// Reads an input to its end and writes its report. Answers whether anything was refused.
pub fn run(mut stdin: Stdin, mut stdout: Stdout, stage: Stage) -> Result<bool, Failure> {
    let mut buffer = [0u8; PIECE];
    let mut out = [0u8; PIECE];
    let start = reporting::start(stage);
    let run = move_all(&mut stdin, &mut stdout, start, &mut buffer, &mut out)?;
    let finished = reporting::finish(run, &mut out);
    write_all(&mut stdout, &out[..finished.written])?;
    Ok(finished.refused)
}
