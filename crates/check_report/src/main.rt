// Says of each record whether it is accepted, and if not which rule it breaks and where.
//
// The input is a record a line. A line ends at byte 10 alone, and may have any length and hold any
// bytes; what stands after the last line end is a record if it is not empty. Records are counted
// from 1, and of record I is said
//
//     I ok edition E             it is accepted; and, where it has one,   I call sign TEXT
//     I refused N P              it is not: the number of the refusal and its place
//     records N refused M        last: how many records there were, and how many were refused
#![tactic(auto)]

use reporting::{Job, Stage};

fn main(rt: HostRuntime) {
    program::run(&rt, Stage::Telling(Job::Check), b"check_report");
}
