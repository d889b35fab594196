// The reports for C, of an input that lies in memory and over standard input and output.
//
// They are here so that a report can be timed with no program around it, and a program as code of any
// processor (bench/run), and for nothing else.
#![tactic(auto)]

ghost use Rattle.std.specs.Prelude.{◌≤◌, length};

use reporting::{Job, Stage};
use std::rt::{Stdin, Stdout};

// The stage that a program begins in, by a number: 0 check_report, 1 readings, any other recast_report.
fn stage_of(number: u64) -> Stage {
    match number {
        0 => Stage::Telling(Job::Check),
        1 => Stage::Telling(Job::Readings),
        _ => Stage::Asking,
    }
}

// Writes the report of an input: what is said of its lines to the front of `out`, the end of it to the
// front of `last`. Answers how many bytes the first has; `closing` is set to how many the second has.
#[unsafe(no_mangle)]
pub extern "C" fn trial_report(
    number: u64,
    input: &[u8],
    out: &mut [u8],
    last: &mut [u8],
    closing: &mut u64,
) -> u64
    ensures { (result ≤ length out.old) × (closing.new ≤ length last.old) }
{
    let fed = reporting::feed(reporting::start(stage_of(number)), input, out);
    let finished = reporting::finish(fed.run, last);
    *closing = finished.written as u64;
    fed.written as u64
}

// Runs a program's report over standard input and output: 0 nothing refused, 1 something refused, 2 a
// failure. To C it has the number alone: the two before it are the leave to read and to write, and take no
// bytes.
#[unsafe(no_mangle)]
pub extern "C" fn trial_program(stdin: Stdin, stdout: Stdout, number: u64) -> u64 {
    match report_run::run(stdin, stdout, stage_of(number)) {
        Ok(false) => 0,
        Ok(true) => 1,
        Err(_) => 2,
    }
}
