// Writing a record from readings.
//
// Every reading is spelled into its element's columns as well as it can be; then what was spelled is checked
// and read, and each element is asked whether it reads as the reading that was given and, where the check
// refused the whole, whether its text is legal. So what is written reads back, and a reading that no legal
// text gives is refused whatever it is.
#![tactic(auto)]

ghost use Rattle.std.specs.Prelude.{◌≡◌, true, ◌&&◌, length};
ghost use Rattle.text.specs.First.{first_of, nonzero};
ghost use Rattle.refusals.specs.Lent.{verdict_of, Answers};
ghost use Rattle.layout.specs.Editions.{length_of, last_element};
ghost use Rattle.layout.specs.Page.{legal};
ghost use Rattle.checking.specs.Check.{checked};
ghost use Rattle.spelling.specs.Same.{same};
ghost use Rattle.writing.specs.Written.{writes, written_in, written};

use layout::{ELEMENTS, Edition, LONGEST, page};
use reading::Reading;
use refusals::{Refusal, Verdict};

// Does a check accept the text in this edition? Then every element of it is legal, and none has to be asked.
fn is_accepted(edition: Edition, text: &[u8]) -> bool
    ensures { result ≡ true → checked text.now ≡ Ok edition }
{
    match checking::check(text) {
        Ok(held) => held == edition,
        Err(_) => false,
    }
}

// Is element e of the text legal? Of a text that a check accepts this is known.
fn is_legal(edition: Edition, text: &[u8], e: usize, is_known: bool) -> bool
    requires { is_known ≡ true → legal edition text.now e ≡ true }
    ensures { result ≡ legal edition text.now e }
{
    if is_known {
        return true;
    }
    page::is_legal_at(edition, text, e)
}

// Is element e of the text legal, and is what it reads as the reading that was given?
fn is_written(
    edition: Edition,
    text: &[u8],
    e: usize,
    is_known: bool,
    read: Reading,
    given: Reading,
) -> bool
    requires { is_known ≡ true → legal edition text.now e ≡ true }
    ensures { result ≡ (legal edition text.now e && same read given) }
{
    is_legal(edition, text, e, is_known) && spelling::is_same(read, given)
}

// The lowest element that is not written as it was given, if there is one.
fn first_unwritten(edition: Edition, entries: [Reading; ELEMENTS], text: &[u8]) -> Option<usize>
    requires { length text.now ≡ length_of edition }
    ensures { result ≡ nonzero (first_of last_element (writes edition entries text.now)) }
{
    let back = reading::read_after(Ok(edition), text);
    let is_known = is_accepted(edition, text);
    for e in 1..ELEMENTS + 1 {
        let k = e - 1;
        if !is_written(edition, text, e, is_known, back.entries[k], entries[k]) {
            return Some(e);
        }
    }
    None
}

// Writes a record of an edition that is held.
fn write_in(edition: Edition, entries: [Reading; ELEMENTS], buffer: &mut [u8]) -> Verdict
    ensures { Answers verdict_of (written_in edition entries) buffer.old buffer.new result }
{
    let length = edition.length();
    let mut row = [b' '; LONGEST];
    spelling::put_all(edition, entries, &mut row);
    let record = &row[..length];
    if let Some(e) = first_unwritten(edition, entries, record) {
        return Err(Refusal::Illegal(reading::lead_of(e)));
    }
    if let Some(k) = ties::first_broken(edition, record) {
        return Err(Refusal::Broken(k));
    }
    if buffer.len() < length {
        return Err(Refusal::Room);
    }
    octets::copy(record, buffer);
    Ok(())
}

// Writes a record from 101 entries, as `reading::read` answers them: any readings, any edition number, any
// buffer. Success writes the first 131 or 159 bytes; a refusal writes none.
pub fn write(entries: [Reading; ELEMENTS], edition: u64, buffer: &mut [u8]) -> Verdict
    ensures { Answers verdict_of (written entries edition) buffer.old buffer.new result }
{
    let held = Edition::of_number(edition).ok_or(Refusal::Unheld)?;
    write_in(held, entries, buffer)
}
