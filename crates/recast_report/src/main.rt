// Says of each record what it loses when it is recast to another edition.
//
// The first line of the input names the edition, 1, 3 or 4 alone on it; each line after it is a record.
// A line ends at byte 10 alone, and may have any length and hold any bytes; what stands after the last
// line end is a line if it is not empty. Records are counted from 1, and of record I is said
//
//     recast to E                first: the edition asked for
//     I ok N E E ..              how many elements are lost, and which, rising
//     I refused N P              the record is refused: the number of the refusal and its place
//     records N refused M        last: how many records there were, and how many were refused
//
// A first line that is absent or names no edition gets 'recast refused 8' and nothing else.
#![tactic(auto)]

use reporting::Stage;

fn main(rt: HostRuntime) {
    program::run(&rt, Stage::Asking, b"recast_report");
}
