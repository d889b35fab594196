// Readings: what the columns of a record say.
//
// One call checks a record and reads it, every element: `read_of` of specs/Answers.antt says what it
// answers. A reading is missing, a code, a text, an amount with its kind, or a place; what each element
// reads as is `item_of` of specs/Readings.antt.
#![tactic(auto)]

ghost use Rattle.std.specs.Prelude.{◌≡◌, true, cond, not, ◌&&◌, ◌||◌, [], ◌∷◌, ◌≤◌, eqb, length};
ghost use Rattle.text.specs.LegalTexts.{among};
ghost use Rattle.layout.specs.declared.Edition.{Edition};
ghost use Rattle.layout.specs.Editions.{length_of, last_element};
ghost use Rattle.layout.specs.Page.{start_of, width_of, is_text, is_departure, is_sign, is_temperature};
ghost use Rattle.reading.specs.Readings.{code_of, plain, below, kind_of, temperature, departure, place_of, lead, item_of};
ghost use Rattle.reading.specs.Answers.{read_after, read_of};

use checking::Answer;
use faults::strays;
use layout::widths::width_of;
use layout::{ELEMENTS, Edition, page};
use places::{Figures, Place};

// How an amount came about.
#[derive(Clone, Copy, PartialEq, Eq)]
pub enum Kind {
    Measured,
    Computed,
    IcedMeasured,
    IcedComputed,
}

#[derive(Clone, Copy, PartialEq, Eq)]
pub enum Reading {
    Missing,
    Code(u64),
    Text(u64),
    Amount(i64, Kind),
    At(Place),
}

// What reading a record answers: its edition, and an entry for each of the 101 elements, the first for
// element 1; or the refusal, and then every entry is missing. So the entries stand beside the answer, and not
// in it: the theorem `only_one` says it of a refused record too.
#[derive(Clone, Copy)]
pub struct Readings {
    pub answer: Answer,
    pub entries: [Reading; ELEMENTS],
}

// Does the element always read as a text?
fn is_always_text(e: usize) -> bool
    ensures { result ≡ is_text e }
{
    matches!(e, 42 | 43 | 44)
}

// The code that the number of element e says: PPPP in tenths.
fn code_of(e: usize, n: u32) -> u64
    ensures { result ≡ code_of e n }
{
    if e == 20 && n <= 999 {
        return u64::from(n) + 10000;
    }
    u64::from(n)
}

// The reading of an element by itself.
#[tactic(auto, unfolding(crate::specs::Readings::plain))]
fn plain_of(e: usize, text: &[u8]) -> Reading
    requires { length text.now ≤ 7 }
    ensures { result ≡ plain e text.now }
{
    if text::is_blank(text) {
        return Reading::Missing;
    }
    if !text::all_between(text, b'0', b'9') || is_always_text(e) {
        return Reading::Text(numerals::word_of(text));
    }
    Reading::Code(code_of(e, text::number_of(text)))
}

// The same of one column that may read as a code, as element 1's does. Each answer is worked out before one
// is chosen, so that the compiler chooses with no branch.
fn column_of(b: u8) -> Reading
    ensures { result ≡ plain 1 (b ∷ []) }
{
    let other = strays(b, b'0', b'9');
    let code = u64::from(b.saturating_sub(b'0'));
    let letter = u64::from(b);
    if b == b' ' {
        return Reading::Missing;
    }
    if other {
        return Reading::Text(letter);
    }
    Reading::Code(code)
}

// The kind of amount that a sign says.
fn kind_of(sign: u32) -> Kind
    ensures { result ≡ kind_of sign }
{
    if sign == 2 {
        return Kind::IcedMeasured;
    }
    if sign == 7 {
        return Kind::IcedComputed;
    }
    if 5 <= sign {
        return Kind::Computed;
    }
    Kind::Measured
}

// The reading of a sign and its temperature.
#[tactic(auto, unfolding(crate::specs::Readings::temperature))]
fn temperature_of(sign: &[u8], value: &[u8]) -> Reading
    requires { (length sign.now ≤ 7) × (length value.now ≤ 7) }
    ensures { result ≡ temperature sign.now value.now }
{
    if text::is_blank(sign) || text::is_blank(value) {
        return Reading::Missing;
    }
    let s = text::number_of(sign);
    let is_below = text::is_among(s, 1, 2, 6, 7);
    Reading::Amount(
        signs::signed_of(is_below, u64::from(text::number_of(value))),
        kind_of(s),
    )
}

// The reading of element 91.
#[tactic(auto, unfolding(crate::specs::Readings::departure))]
fn departure_of(text: &[u8]) -> Reading
    requires { length text.now ≤ 7 }
    ensures { result ≡ departure text.now }
{
    if text::is_blank(text) {
        return Reading::Missing;
    }
    let n = text::number_of(text);
    Reading::Amount(
        signs::signed_of(100 <= n, u64::from(n % 100)),
        Kind::Measured,
    )
}

// The reading of column 12, latitude and longitude.
#[tactic(auto, unfolding(crate::specs::Readings::place_of))]
fn place_of(edition: Edition, digit: &[u8], latitude: &[u8], longitude: &[u8]) -> Reading
    requires { (length digit.now ≤ 7) × ((length latitude.now ≤ 7) × (length longitude.now ≤ 7)) }
    ensures { result ≡ place_of edition digit.now latitude.now longitude.now }
{
    if text::is_blank(digit) || text::is_blank(latitude) || text::is_blank(longitude) {
        return Reading::Missing;
    }
    let figures = Figures {
        digit: text::number_of(digit),
        latitude: text::number_of(latitude),
        longitude: text::number_of(longitude),
    };
    Reading::At(places::place_at(edition, figures))
}

// The lowest element of those that share a reading with element e.
pub fn lead_of(e: usize) -> usize
    ensures { result ≡ lead e }
{
    match e {
        7 | 8 => 6,
        17 => 16,
        19 => 18,
        29 => 28,
        51 => 50,
        _ => e,
    }
}

// Is it the sign of a temperature? The elements are listed here, and the temperatures below, as on the page.
pub fn is_sign(e: usize) -> bool
    ensures { result ≡ is_sign e }
{
    matches!(e, 16 | 18 | 28 | 50)
}

// Is it a temperature, whose sign stands before it?
pub fn is_temperature(e: usize) -> bool
    ensures { result ≡ is_temperature e }
{
    matches!(e, 17 | 19 | 29 | 51)
}

// Do others share the reading that begins with the element?
fn is_leading(e: usize) -> bool
    ensures { result ≡ (eqb e 6 || is_sign e) }
{
    e == 6 || is_sign(e)
}

// What the elements read as that share a reading, of which e is the first and starts at that column: a
// place, or a sign and its temperature.
fn item_at(edition: Edition, line: &[u8], e: usize, at: usize) -> Reading
    requires { ((eqb e 6 || is_sign e) ≡ true) × (at ≡ start_of e) }
    ensures { result ≡ item_of edition line.now e }
{
    let first = page::columns(line, at, width_of(e));
    let next = at + width_of(e);
    let second = page::columns(line, next, width_of(e + 1));
    if e == 6 {
        let last = next + width_of(7);
        let third = page::columns(line, last, width_of(8));
        return place_of(edition, first, second, third);
    }
    temperature_of(first, second)
}

// The reading of an element that shares it with no other.
#[tactic(auto, using(layout::proofs::PartLaws::departure_is))]
fn alone_of(e: usize, text: &[u8]) -> Reading
    requires { length text.now ≤ 7 }
    ensures { result ≡ cond (is_departure e) (departure text.now) (plain e text.now) }
{
    if e == 91 {
        return departure_of(text);
    }
    plain_of(e, text)
}

// The elements of one column that share their reading with no other and may read as a code, a bit each:
// those up to 63, and those from 64 on. They are no set of elements: of one word a shift tells.
const SINGLE_0: u64 = 0xf8d2_e3a0_cfc0_5602;

const SINGLE_64: u64 = 0x003f_c07f_ffff;

// Is it one of them?
fn is_single(e: usize) -> bool
    requires { e ≤ last_element }
    ensures { result ≡ (eqb (width_of e) 1 && not (eqb e 6 || is_sign e) && not (is_text e)) }
{
    if e < 64 {
        return (SINGLE_0 >> e) % 2 == 1;
    }
    (SINGLE_64 >> (e - 64)) % 2 == 1
}

// Reads a record of which the check's answer is known: every element of an accepted one. Where an element
// starts is carried along; those that the edition lacks stay missing, as all of a refused record do. The
// entries are made once for either answer, so that the compiler has no two rows to choose between.
pub fn read_after(answer: Answer, line: &[u8]) -> Readings
    requires { (ed : Edition) → answer ≡ Ok ed → length line.now ≡ length_of ed }
    ensures { result ≡ read_after answer line.now }
{
    let mut all = Readings {
        answer: answer,
        entries: [Reading::Missing; ELEMENTS],
    };
    if let Ok(edition) = answer {
        let last = edition.last();
        let mut at = 0;
        for e in 1..last + 1 {
            let k = e - 1;
            if is_single(e) {
                all.entries[k] = column_of(line[at]);
                at += 1;
            } else {
                let end = at + width_of(e);
                let lead = lead_of(e);
                if lead != e {
                    all.entries[k] = all.entries[lead - 1];
                } else if is_leading(e) {
                    all.entries[k] = item_at(edition, line, e, at);
                } else {
                    all.entries[k] = alone_of(e, &line[at..end]);
                }
                at = end;
            }
        }
    }
    all
}

// Checks a record and reads it: the refusal, or its edition and all its readings. Takes any bytes.
pub fn read(line: &[u8]) -> Readings
    ensures { result ≡ read_of line.now }
{
    read_after(checking::check(line), line)
}
