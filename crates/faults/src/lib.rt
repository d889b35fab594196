// A test of a byte that makes no branch: joined by `|` and `&` with others, the compiler makes it of
// sixteen bytes at once where a loop asks it of them.
#![tactic(auto)]

ghost use Rattle.std.specs.Prelude.{◌≡◌, ◌≤◌, not};
ghost use Rattle.text.specs.Bytes.{between};

// Does the byte stray from a run of bytes? Counted from the low end of the run, around the end of all
// bytes, what strays is further than the high end: so one test does for two.
pub fn strays(b: u8, low: u8, high: u8) -> bool
    ensures { low ≤ high → result ≡ not (between low high b) }
{
    b.wrapping_sub(low) > high.wrapping_sub(low)
}
