// The calls that the desk's host program does not make, for C: reading a record, showing the call sign,
// and writing from readings. They are here for the comparison with the other implementation, peer/compare,
// and for bench/run, and for nothing else; the desk's own exports are in the crate desk.
//
// Readings are passed as numbers, the same way in and out. For each element, four: the case (0 missing, 1 a
// code, 2 a text, 3 an amount, 4 a place); the code or the text's number; the kind (0 measured, 1 computed,
// 2 iced measured, 3 iced computed) or the longitude; the digit of column 12. And beside them one number
// with a sign: the amount or the latitude. What a case does not use is 0.
#![tactic(auto)]

ghost use Rattle.std.specs.Prelude.{◌≡◌, ◌&&◌, ◌++◌, ◌*◌, ◌≤◌, leb, pos, length, get_or, drop};
ghost use Rattle.layout.specs.Editions.{last_element};
ghost use Rattle.refusals.specs.Verdicts.{verdict_number, verdict_place};
ghost use Rattle.refusals.specs.Lent.{verdict_in, left_by};
ghost use Rattle.checking.specs.Check.{checked, answer_verdict, call_sign_of};
ghost use Rattle.reading.specs.Answers.{read_of};
ghost use Rattle.spelling.specs.Same.{kind_number};
ghost use Rattle.writing.specs.Written.{written};
ghost use Rattle.trial.specs.Packed.{kind_from, reading_from, reading_at, entries_in, packed, numbers_of, amounts_of, edition_in, room, laid_in, shown_in};

use checking::Answer;
use layout::ELEMENTS;
use places::Place;
use reading::{Kind, Reading, Readings};

// Four numbers for each element.
const NUMBERS: usize = 4 * ELEMENTS;

// The numbers of a reading, the one with a sign last.
#[derive(Clone, Copy)]
pub struct Packed {
    pub case: u64,
    pub first: u64,
    pub second: u64,
    pub digit: u64,
    pub amount: i64,
}

// The number of a kind.
fn kind_number(kind: Kind) -> u64
    ensures { result ≡ kind_number kind }
{
    match kind {
        Kind::Measured => 0,
        Kind::Computed => 1,
        Kind::IcedMeasured => 2,
        Kind::IcedComputed => 3,
    }
}

// Packs a reading.
#[tactic(auto, unfolding(crate::specs::Packed::packed))]
fn pack(reading: Reading) -> Packed
    ensures { result ≡ packed reading }
{
    match reading {
        Reading::Missing => Packed {
            case: 0,
            first: 0,
            second: 0,
            digit: 0,
            amount: 0,
        },
        Reading::Code(n) => Packed {
            case: 1,
            first: n,
            second: 0,
            digit: 0,
            amount: 0,
        },
        Reading::Text(n) => Packed {
            case: 2,
            first: n,
            second: 0,
            digit: 0,
            amount: 0,
        },
        Reading::Amount(a, kind) => Packed {
            case: 3,
            first: 0,
            second: kind_number(kind),
            digit: 0,
            amount: a,
        },
        Reading::At(place) => Packed {
            case: 4,
            first: 0,
            second: place.longitude,
            digit: place.digit,
            amount: place.latitude,
        },
    }
}

// Puts the numbers of all 101 readings at the front of what is lent.
fn put_all(all: Readings, numbers: &mut [u64], amounts: &mut [i64])
    requires { (4 * last_element ≤ length numbers.old) × (last_element ≤ length amounts.old) }
    ensures numbers_after { numbers.new ≡ numbers_of all.entries ++ drop (4 * last_element) numbers.old }
    ensures amounts_after { amounts.new ≡ amounts_of all.entries ++ drop last_element amounts.old }
{
    for k in 0..ELEMENTS {
        let said = pack(all.entries[k]);
        let i = 4 * k;
        numbers[i] = said.case;
        numbers[i + 1] = said.first;
        numbers[i + 2] = said.second;
        numbers[i + 3] = said.digit;
        amounts[k] = said.amount;
    }
}

// Is there room for the numbers of all readings?
fn has_room(numbers: &[u64], amounts: &[i64]) -> bool
    ensures { result ≡ room numbers.now amounts.now }
{
    NUMBERS <= numbers.len() && ELEMENTS <= amounts.len()
}

// The number of an accepted record's edition, 0 where it is refused.
#[tactic(auto, unfolding(crate::specs::Packed::edition_in))]
fn edition_in(answer: Answer) -> u64
    ensures { result ≡ edition_in answer }
{
    answer.map_or(0, |edition| edition.number())
}

// Reads a record: the refusal's number, 0 where there is none, its place, the edition's number, 0 where the
// record is refused, and, where there is room for all of them, the numbers of the readings.
#[unsafe(no_mangle)]
pub extern "C" fn trial_read(
    line: &[u8],
    numbers: &mut [u64],
    amounts: &mut [i64],
    edition: &mut u64,
    place: &mut u64,
) -> u64
    ensures value { result ≡ verdict_number (answer_verdict (read_of line.now).answer) }
    ensures numbers_after { numbers.new ≡ laid_in (room numbers.old amounts.old) (numbers_of (read_of line.now).entries) numbers.old }
    ensures amounts_after { amounts.new ≡ laid_in (room numbers.old amounts.old) (amounts_of (read_of line.now).entries) amounts.old }
    ensures edition_after { edition.new ≡ edition_in (read_of line.now).answer }
    ensures place_after { place.new ≡ verdict_place (answer_verdict (read_of line.now).answer) }
{
    let all = reading::read(line);
    let answer = all.answer;
    let verdict = checking::verdict_of(answer);
    let number = refusals::number_of(verdict);
    let at = refusals::place_of(verdict);
    let held = edition_in(answer);
    if has_room(numbers, amounts) {
        put_all(all, numbers, amounts);
    }
    *edition = held;
    *place = at;
    number
}

// Shows the call sign: its length, as C takes it, and its characters at the front of the buffer where there
// is room.
#[unsafe(no_mangle)]
pub extern "C" fn trial_show(line: &[u8], buffer: &mut [u8]) -> u64
    ensures value { result ≡ length (call_sign_of (checked line.now) line.now) }
    ensures buffer_after { buffer.new ≡ shown_in (call_sign_of (checked line.now) line.now) buffer.old }
{
    let sign = checking::show_call_sign(line);
    if sign.len() <= buffer.len() {
        octets::copy(sign, buffer);
    }
    sign.len() as u64
}

// The number at a place, or the one that stands for none.
fn at_or<T: Copy>(items: &[T], i: usize, none: T) -> T
    ensures { result ≡ get_or items.now i none }
{
    items.get(i).copied().unwrap_or(none)
}

// The kind that a number says.
fn kind_of(n: u64) -> Kind
    ensures { result ≡ kind_from n }
{
    match n {
        0 => Kind::Measured,
        1 => Kind::Computed,
        2 => Kind::IcedMeasured,
        _ => Kind::IcedComputed,
    }
}

// The reading that a case and its parts say.
#[tactic(auto, unfolding(crate::specs::Packed::reading_from))]
fn reading_of(case: u64, first: u64, second: u64, digit: u64, amount: i64) -> Reading
    ensures { result ≡ reading_from case first second digit amount }
{
    match case {
        1 => Reading::Code(first),
        2 => Reading::Text(first),
        3 => Reading::Amount(amount, kind_of(second)),
        4 => Reading::At(Place {
            latitude: amount,
            longitude: second,
            digit: digit,
        }),
        _ => Reading::Missing,
    }
}

// The reading of element k + 1.
#[tactic(auto, unfolding(crate::specs::Packed::reading_at))]
fn reading_at(numbers: &[u64], amounts: &[i64], k: usize) -> Reading
    requires { k ≤ 100 }
    ensures { result ≡ reading_at numbers.now amounts.now k }
{
    let i = 4 * k;
    let case = at_or(numbers, i, 0);
    let first = at_or(numbers, i + 1, 0);
    let second = at_or(numbers, i + 2, 0);
    let digit = at_or(numbers, i + 3, 0);
    let amount = at_or(amounts, k, 0);
    reading_of(case, first, second, digit, amount)
}

// The entries of all 101 elements.
fn entries_of(numbers: &[u64], amounts: &[i64]) -> [Reading; ELEMENTS]
    ensures { result ≡ entries_in numbers.now amounts.now }
{
    let mut entries = [Reading::Missing; ELEMENTS];
    for k in 0..ELEMENTS {
        entries[k] = reading_at(numbers, amounts, k);
    }
    entries
}

// Writes a record from 101 readings: the refusal's number, 0 on success, and its place. Success writes the
// first 131 or 159 bytes of the buffer, a refusal none. Numbers that are not there are 0, so that a reading
// without any is missing.
#[unsafe(no_mangle)]
pub extern "C" fn trial_write(
    numbers: &[u64],
    amounts: &[i64],
    edition: u64,
    buffer: &mut [u8],
    place: &mut u64,
) -> u64
    ensures value { result ≡ verdict_number (verdict_in (length buffer.old) (written (entries_in numbers.now amounts.now) edition)) }
    ensures place_after { place.new ≡ verdict_place (verdict_in (length buffer.old) (written (entries_in numbers.now amounts.now) edition)) }
    ensures buffer_after { buffer.new ≡ left_by (written (entries_in numbers.now amounts.now) edition) buffer.old }
{
    let verdict = writing::write(entries_of(numbers, amounts), edition, buffer);
    let at = refusals::place_of(verdict);
    let number = refusals::number_of(verdict);
    *place = at;
    number
}
