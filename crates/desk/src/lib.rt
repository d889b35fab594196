// The calls that the desk's host program makes, for C.
//
// Each is one call and some stores. A record is a pointer and a length, as C passes a slice; a
// number behind a pointer is part of the answer and is set at every call.
#![tactic(auto)]

ghost use Rattle.std.specs.Prelude.{◌≡◌, length};
ghost use Rattle.refusals.specs.Verdicts.{verdict_number, verdict_place};
ghost use Rattle.refusals.specs.Lent.{left_by};
ghost use Rattle.checking.specs.Check.{answer_verdict};
ghost use Rattle.reading.specs.Answers.{read_of};
ghost use Rattle.recasting.specs.Recast.{recast_of, outcome_in, verdict_said, losses_said};

use element_sets::ElementSet;

// Checks a record: the refusal's number, 0 where it is accepted, and the place, as reading it answers.
// The readings are not made: the compiler does not drop those that nobody asks for.
#[unsafe(no_mangle)]
#[tactic(auto, using(reading::proofs::Request6Readings::checks))]
pub extern "C" fn immt_check(line: &[u8], place: &mut u64) -> u64
    ensures value { result ≡ verdict_number (answer_verdict (read_of line.now).answer) }
    ensures place_after { place.new ≡ verdict_place (answer_verdict (read_of line.now).answer) }
{
    let answer = checking::check(line);
    let verdict = checking::verdict_of(answer);
    let at = refusals::place_of(verdict);
    let number = refusals::number_of(verdict);
    *place = at;
    number
}

// Recasts a record to the edition asked for: the refusal's number, 0 on success, the place, and the
// elements lost as two words of bits, element 1 the lowest of the first and 65 of the second. Success
// writes the first 131 or 159 bytes of the buffer, a refusal none.
#[unsafe(no_mangle)]
pub extern "C" fn immt_recast(
    line: &[u8],
    edition: u64,
    buffer: &mut [u8],
    place: &mut u64,
    lost_low: &mut u64,
    lost_high: &mut u64,
) -> u64
    ensures value { result ≡ verdict_number (verdict_said (outcome_in (length buffer.old) (recast_of line.now edition))) }
    ensures place_after { place.new ≡ verdict_place (verdict_said (outcome_in (length buffer.old) (recast_of line.now edition))) }
    ensures lost_low_after { lost_low.new ≡ (losses_said (outcome_in (length buffer.old) (recast_of line.now edition))).low }
    ensures lost_high_after { lost_high.new ≡ (losses_said (outcome_in (length buffer.old) (recast_of line.now edition))).high }
    ensures buffer_after { buffer.new ≡ left_by (recast_of line.now edition) buffer.old }
{
    let outcome = recasting::recast(line, edition, buffer);
    let verdict = outcome.map(|_| ());
    let losses = outcome.unwrap_or(ElementSet::none());
    let refused_at = refusals::place_of(verdict);
    let refusal = refusals::number_of(verdict);
    *place = refused_at;
    *lost_low = losses.low;
    *lost_high = losses.high;
    refusal
}
