// Recasting a record to another edition.
//
// All editions share columns, so the record is copied into the lent buffer, the elements that the target
// has no text for are blanked there and named, and columns 12 and 111 are set by rules of their own.
// `recast_of` of specs/Recast.antt says what is answered; what is lost is the business of `blanking`.
#![tactic(auto)]

ghost use Rattle.std.specs.Prelude.{◌≡◌, ◌<◌, ◌≤◌, length, take, drop, set};
ghost use Rattle.refusals.specs.Lent.{Answers};
ghost use Rattle.layout.specs.Editions.{asked, length_of};
ghost use Rattle.layout.specs.Page.{start_of};
ghost use Rattle.checking.specs.Check.{checked};
ghost use Rattle.recasting.specs.Recast.{hemisphere, digit_of, widened, recast_record, recast_to, recast_of, outcome_of};

use blanking::names;
use element_sets::ElementSet;
use layout::{Edition, page, widths};
use places::Figures;
use places::column_12::Way;
use refusals::Refusal;

// What recasting a record answers: the elements lost, or why it is refused.
pub type Outcome = Result<ElementSet, Refusal>;

// Column 12 in the target.
fn hemisphere_of(way: Way, line: &[u8]) -> u8
    requires { 131 ≤ length line.now }
    ensures { result ≡ hemisphere way.from way.to line.now }
{
    let digit = page::full_text(line, 6);
    if !way.is_crossing() {
        return page::first_byte(line, 6);
    }
    if text::is_blank(digit) {
        return page::first_byte(line, 6);
    }
    let latitude = page::full_text(line, 7);
    let longitude = page::full_text(line, 8);
    let figures = Figures {
        digit: text::number_of(digit),
        latitude: text::number_of(latitude),
        longitude: text::number_of(longitude),
    };
    places::column_12::lowest_digit(way, figures)
}

// Column 111 in the target: the digit of its number. No From makes a byte of a wider number.
fn digit_of(edition: Edition) -> u8
    ensures { result ≡ digit_of edition }
{
    b'0' + edition.number() as u8
}

// Fills the columns that edition 1 does not have: from the record, or with blanks where it is of edition 1.
fn fill_rest(from: Edition, line: &[u8], rest: &mut [u8])
    requires { (length line.now ≡ length_of from) × (length rest.old ≡ 28) }
    ensures { rest.new ≡ drop 131 (widened line.now) }
{
    if places::column_12::is_first(from) {
        let blanks = [32u8; 28];
        octets::copy(&blanks, rest);
        return;
    }
    octets::copy(&line[Edition::LENGTH_1..Edition::LENGTH_3], rest);
}

// Copies the record into a row of the target's length. The lengths stand in the code, so that the
// compiler knows them.
fn fill(way: Way, line: &[u8], row: &mut [u8])
    requires { (length line.now ≡ length_of way.from) × (length row.old ≡ length_of way.to) }
    ensures { row.new ≡ take (length_of way.to) (widened line.now) }
{
    octets::copy(&line[..Edition::LENGTH_1], row);
    if places::column_12::is_first(way.to) {
        return;
    }
    let rest = &mut row[Edition::LENGTH_1..];
    fill_rest(way.from, line, rest);
}

// Puts a byte in the first column of element e.
fn put(row: &mut [u8], e: usize, b: u8)
    requires { start_of e < length row.old }
    ensures { row.new ≡ set row.old (start_of e) b }
{
    row[widths::start_of(e)] = b;
}

// Makes the recast record in a row of the target's length.
fn make(way: Way, line: &[u8], row: &mut [u8])
    requires { (checked line.now ≡ Ok way.from) × (length row.old ≡ length_of way.to) }
    ensures { row.new ≡ recast_record way.from way.to line.now }
{
    fill(way, line, row);
    blanking::blank_lost(way, row);
    put(row, 6, hemisphere_of(way, line));
    put(row, 65, digit_of(way.to));
}

// Recasts an accepted record to an edition that is held, straight into the lent buffer: no byte of it is
// written before every refusal was asked.
fn recast_in(way: Way, line: &[u8], buffer: &mut [u8]) -> Outcome
    requires { checked line.now ≡ Ok way.from }
    ensures { Answers outcome_of (recast_to way.from (Some way.to) line.now) buffer.old buffer.new result }
{
    let length = way.to.length();
    if buffer.len() < length {
        return Err(Refusal::Room);
    }
    let row = &mut buffer[..length];
    make(way, line, row);
    Ok(names::losses_of(way, line))
}

// Recasts a record: any bytes, any edition number, any buffer. Success writes the first 131 or 159
// bytes; a refusal writes none.
pub fn recast(line: &[u8], edition: u64, buffer: &mut [u8]) -> Outcome
    ensures { Answers outcome_of (recast_of line.now edition) buffer.old buffer.new result }
{
    let from = checking::check(line)?;
    let to = Edition::of_number(edition).ok_or(Refusal::Unheld)?;
    recast_in(Way { from, to }, line, buffer)
}
