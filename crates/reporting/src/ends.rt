// Where a line of the input ends.
//
// A record has 131 or 159 bytes, and to look at each of them alone would take longer than to put the
// record's line: so sixteen are looked at together.
ghost use Rattle.std.specs.Prelude.{◌≡◌, ◌+◌, ◌≤◌, length, bit_or, nat_eq};
ghost use Rattle.std.specs.List.{fold};
ghost use Rattle.std.specs.Int.{from_bool};
ghost use Rattle.reporting.specs.Lines.{next_end};

// Not 0 where a line ends among the bytes. Each of them is looked at, whatever those before it are, so that
// the processor takes all of sixteen at once; which of them ends a line is not said. A byte and no bool: with
// bools a line's end is found in 13 ns, and so in 10.
fn ends_among(bytes: &[u8]) -> u8
    ensures { result ≡ fold (λ found byte. bit_or found (from_bool (nat_eq byte 10))) 0 bytes.now }
{
    bytes
        .iter()
        .fold(0, |found, byte| found | u8::from(*byte == b'\n'))
}

// Where the line ends that `from` lies in: at the next byte 10, or at the end of the piece. Sixteen bytes
// are passed over at a time, as long as no line ends among them: the place is asked for, which a count of
// `chunks_exact` would have to be turned back into.
pub fn line_end(piece: &[u8], from: usize) -> usize
    requires { from ≤ length piece.now }
    ensures value { result ≡ next_end piece.now from }
    ensures upper_bound { result ≤ length piece.now }
{
    let mut at = from;
    while 16 <= piece.len() - at {
        if ends_among(&piece[at..at + 16]) != 0 {
            break;
        }
        at += 16;
    }
    octets::find(piece, at, b'\n')
}
