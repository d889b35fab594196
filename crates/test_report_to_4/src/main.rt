// Runs the recast report on 440 records to edition 4: what it must write comes from an implementation
// that shares no line with this one.
#![tactic(auto)]

use reporting::Stage;

fn main(rt: HostRuntime) {
    program::run(&rt, Stage::Asking, b"test_report_to_4");
}
