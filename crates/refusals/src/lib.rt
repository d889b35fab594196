// Why a call refuses, and the one verdict that every call answers by.
//
// `row_of` of specs/Refusals.antt is the table of refusals. What a call does to a buffer that is lent to it
// is said once for all calls, in specs/Lent.antt.
#![tactic(auto)]

ghost use Rattle.std.specs.Prelude.{◌≡◌};
ghost use Rattle.refusals.specs.Refusals.{number_of, where_of};
ghost use Rattle.refusals.specs.Verdicts.{verdict_number, verdict_place};

// Why a call refuses, with the place where that goes by the input.
#[derive(Clone, Copy, PartialEq, Eq)]
pub enum Refusal {
    // length neither 131 nor 159
    Length,
    // a byte outside 32..126; its lowest column
    Unprintable(usize),
    // column 1 not 3, 4, 5
    Format,
    // column 111 not 1, 3, 4
    Version,
    // length is not that edition's
    EditionLength,
    // an element neither blank nor legal; the lowest
    Illegal(usize),
    // a tie broken; the lowest
    Broken(usize),
    // edition asked for not 1, 3, 4
    Unheld,
    // lent buffer shorter than what is to be written
    Room,
}

impl Refusal {
    // The refusal's number in the table, which the calls for C answer and README.md's table gives: no derive
    // makes it, since three refusals bring a place.
    pub fn number(self) -> u64
        ensures { result ≡ number_of self }
    {
        match self {
            Refusal::Length => 1,
            Refusal::Unprintable(_) => 2,
            Refusal::Format => 3,
            Refusal::Version => 4,
            Refusal::EditionLength => 5,
            Refusal::Illegal(_) => 6,
            Refusal::Broken(_) => 7,
            Refusal::Unheld => 8,
            Refusal::Room => 9,
        }
    }

    // The place that goes with it, for the calls for C. There is no From for usize.
    pub fn place(self) -> u64
        ensures { result ≡ where_of self }
    {
        match self {
            Refusal::Length => 0,
            Refusal::Unprintable(column) => column as u64,
            Refusal::Format => 1,
            Refusal::Version => 111,
            Refusal::EditionLength => 0,
            Refusal::Illegal(element) => element as u64,
            Refusal::Broken(tie) => tie as u64,
            Refusal::Unheld => 0,
            Refusal::Room => 0,
        }
    }
}

// What a call says of what it was given.
pub type Verdict = Result<(), Refusal>;

// The number of the refusal, 0 where there is none: so the calls for C answer, and with the place below too.
pub fn number_of(verdict: Verdict) -> u64
    ensures { result ≡ verdict_number verdict }
{
    match verdict {
        Ok(()) => 0,
        Err(refusal) => refusal.number(),
    }
}

// The place that goes with it.
pub fn place_of(verdict: Verdict) -> u64
    ensures { result ≡ verdict_place verdict }
{
    match verdict {
        Ok(()) => 0,
        Err(refusal) => refusal.place(),
    }
}
