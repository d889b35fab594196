// Says of each record what every element reads as.
//
// The input is a record a line. A line ends at byte 10 alone, and may have any length and hold any
// bytes; what stands after the last line end is a record if it is not empty. Records are counted
// from 1, and of record I is said
//
//     I refused N P              it is refused: the number of the refusal and its place; or
//     I ok edition E             it is accepted, and then for each element K that is not missing
//     I K code V                 a code
//     I K text V                 a text: its bytes as one number, the first byte highest
//     I K amount V KIND          tenths of a degree, or metres for element 91; KIND is measured,
//                                computed, iced measured or iced computed
//     I K place LAT LON DIGIT    hundredths of a degree, the latitude negative in the south, the
//                                longitude 0 to 35999 east, and the digit of column 12
//     I call sign TEXT           where the record has one
//     I written same             the record written from these readings is the record read
//     records N refused M        last: how many records there were, and how many were refused
#![tactic(auto)]

use reporting::{Job, Stage};

fn main(rt: HostRuntime) {
    program::run(&rt, Stage::Telling(Job::Readings), b"readings");
}
