// Readings spelled into the columns of a record, and compared.
//
// A reading and an element give the numeral of the element's columns: an amount is written in those of its
// sign and of its temperature, a place in those of its digit, latitude and longitude. It is spelled as well
// as it can be, whatever the reading; whether the text is legal and reads as the reading is asked
// afterwards, by comparing the two readings.
#![tactic(auto)]

ghost use Rattle.std.specs.Prelude.{◌≡◌, cond, ◌≤◌, ◌<◌, ◌+◌, ◌^◌, length};
ghost use Rattle.layout.specs.Editions.{longest_record, last_element};
ghost use Rattle.spelling.specs.Spelled.{sign_digit, amount_numeral, place_numeral, numeral_for, row_for};
ghost use Rattle.spelling.specs.Same.{same};

use layout::{ELEMENTS, Edition, widths};
use numerals::Numeral;
use places::Place;
use reading::{Kind, Reading};

// Are two readings the same in every part? Its definition says which parts, and four edits stand on it.
pub fn is_same(a: Reading, b: Reading) -> bool
    ensures { result ≡ same a b }
{
    a == b
}

// The sign of an amount: 0 and 1 measured, 5 and 6 computed, 2 and 7 iced.
fn sign_digit(below: bool, kind: Kind) -> u64
    ensures { result ≡ sign_digit below kind }
{
    match kind {
        Kind::Measured => if below { 1 } else { 0 },
        Kind::Computed => if below { 6 } else { 5 },
        Kind::IcedMeasured => 2,
        Kind::IcedComputed => 7,
    }
}

// The number of element 91: its sign stands in the hundreds.
fn departure_number(below: bool, n: u64) -> u64
    requires { n ≤ 2 ^ 63 }
    ensures { result ≡ cond below (n + 100) n }
{
    if below { n + 100 } else { n }
}

// What is written for an amount in the columns of element e.
#[tactic(auto, using(layout::proofs::PartLaws::departure_is), unfolding(crate::specs::Spelled::amount_numeral))]
fn amount_numeral(e: usize, a: i64, kind: Kind) -> Numeral
    ensures { result ≡ amount_numeral e a kind }
{
    let below = a < 0;
    let n = a.unsigned_abs();
    if reading::is_sign(e) {
        return Numeral::digits(sign_digit(below, kind));
    }
    if reading::is_temperature(e) {
        return Numeral::digits(n);
    }
    if e == 91 {
        return Numeral::digits(departure_number(below, n));
    }
    Numeral::blanks()
}

// What is written for a place in the columns of element e.
#[tactic(auto, unfolding(crate::specs::Spelled::place_numeral))]
fn place_numeral(edition: Edition, e: usize, place: Place) -> Numeral
    ensures { result ≡ place_numeral edition e place }
{
    match e {
        6 => Numeral::digits(place.digit),
        7 => Numeral::digits(places::latitude_figure(place)),
        8 => Numeral::digits(places::longitude_figure(edition, place)),
        _ => Numeral::blanks(),
    }
}

// What is written for a reading in the columns of element e.
#[tactic(auto, unfolding(crate::specs::Spelled::numeral_for))]
fn numeral_for(edition: Edition, e: usize, reading: Reading) -> Numeral
    ensures value { result ≡ numeral_for edition e reading }
    ensures base_nonzero { (0 < result.base) × (result.nought + result.base ≤ 256) }
{
    match reading {
        Reading::Missing => Numeral::blanks(),
        Reading::Code(n) => Numeral::digits(n),
        Reading::Text(n) => Numeral::bytes(n),
        Reading::Amount(a, kind) => amount_numeral(e, a, kind),
        Reading::At(place) => place_numeral(edition, e, place),
    }
}

// Spells every reading into its element's columns, all 101 elements.
pub fn put_all(edition: Edition, entries: [Reading; ELEMENTS], row: &mut [u8])
    requires { length row.old ≡ longest_record }
    ensures { row.new ≡ row_for edition entries 1 last_element }
{
    let mut at = 0;
    for e in 1..ELEMENTS + 1 {
        let width = widths::width_of(e);
        let k = reading::lead_of(e) - 1;
        numerals::put(row, at, width, numeral_for(edition, e, entries[k]));
        at += width;
    }
}
