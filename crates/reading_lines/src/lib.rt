// What the program readings says of a record, put on a sheet.
#![tactic(auto)]

ghost use Rattle.std.specs.Prelude.{◌≤◌, ◌≡◌, length, Ok};
ghost use Rattle.layout.specs.Editions.{length_of};
ghost use Rattle.reading.specs.declared.Reading.TheVariants.{Amount, At};
ghost use Rattle.wording.specs.Wording.{decimal};
ghost use Rattle.wording.specs.Puts.{HasRoom, Adds};
ghost use Rattle.report_lines.specs.Says.{line_most, record_most, Says};
ghost use Rattle.reading_lines.specs.Sentences.{kind_words, reading_words, reading_line, reading_lines, written_back, written_line, read_text, read_said, read_refused};

use layout::{ELEMENTS, Edition, LONGEST};
use places::Place;
use reading::{Kind, Reading};
use wording::Sheet;

// Puts how an amount was come by.
fn put_kind(sheet: &mut Sheet<'_>, kind: Kind)
    requires { HasRoom 14 sheet.old }
    ensures { Adds (kind_words kind) 14 sheet.old sheet.new }
{
    match kind {
        Kind::Measured => sheet.put_text(b" measured"),
        Kind::Computed => sheet.put_text(b" computed"),
        Kind::IcedMeasured => sheet.put_text(b" iced measured"),
        Kind::IcedComputed => sheet.put_text(b" iced computed"),
    }
}

// Puts an amount, and how it was come by.
fn put_amount(sheet: &mut Sheet<'_>, amount: i64, kind: Kind)
    requires { HasRoom 43 sheet.old }
    ensures { Adds (reading_words (Amount amount kind)) 43 sheet.old sheet.new }
{
    sheet.put_text(b" amount ");
    sheet.put_signed(amount);
    put_kind(sheet, kind);
}

// Puts a place: latitude, east longitude and the digit of column 12.
fn put_place(sheet: &mut Sheet<'_>, place: Place)
    requires { HasRoom 70 sheet.old }
    ensures { Adds (reading_words (At place)) 70 sheet.old sheet.new }
{
    sheet.put_text(b" place ");
    sheet.put_signed(place.latitude);
    sheet.put_numbered(b" ", place.longitude);
    sheet.put_numbered(b" ", place.digit);
}

// Puts what an element reads as, and nothing where it is missing.
fn put_words(sheet: &mut Sheet<'_>, reading: Reading)
    requires { HasRoom 70 sheet.old }
    ensures { Adds (reading_words reading) 70 sheet.old sheet.new }
{
    match reading {
        Reading::Missing => {}
        Reading::Code(n) => sheet.put_numbered(b" code ", n),
        Reading::Text(n) => sheet.put_numbered(b" text ", n),
        Reading::Amount(amount, kind) => put_amount(sheet, amount, kind),
        Reading::At(place) => put_place(sheet, place),
    }
}

// Puts the line of an element, or none where it is missing. The count of the record stands in each of its
// lines, and is spelled once for all of them.
fn put_reading(sheet: &mut Sheet<'_>, count: &[u8], element: u64, reading: Reading)
    requires { HasRoom line_most sheet.old × (length count.now ≤ 20) }
    ensures { Adds (reading_line count.now element reading) line_most sheet.old sheet.new }
{
    match reading {
        Reading::Missing => {}
        _ => {
            sheet.put_text(count);
            sheet.put_numbered(b" ", element);
            put_words(sheet, reading);
            sheet.put_text(b"\n");
        }
    }
}

// Puts the lines of all 101 elements.
fn put_readings(sheet: &mut Sheet<'_>, count: &[u8], entries: [Reading; ELEMENTS])
    requires { HasRoom 11312 sheet.old × (length count.now ≤ 20) }
    ensures { Adds (reading_lines count.now 1 entries) 11312 sheet.old sheet.new }
{
    for (k, reading) in entries.iter().enumerate() {
        // there is no From for usize
        put_reading(sheet, count, k as u64 + 1, *reading);
    }
}

// Spells the count of the record, and puts the lines of all its elements.
fn put_elements(sheet: &mut Sheet<'_>, count: u64, entries: [Reading; ELEMENTS])
    requires { HasRoom 11312 sheet.old }
    ensures { Adds (reading_lines (decimal count) 1 entries) 11312 sheet.old sheet.new }
{
    let mut digits = [0u8; 20];
    let mut spelled = Sheet {
        out: &mut digits,
        end: 0,
    };
    spelled.put_number(count);
    let length = spelled.end;
    put_readings(sheet, &digits[..length], entries);
}

// Does writing the readings give the record back?
fn is_written_back(edition: Edition, entries: [Reading; ELEMENTS], line: &[u8]) -> bool
    ensures { result ≡ written_back edition entries line.now }
{
    let mut buffer = [0u8; LONGEST];
    let length = edition.length();
    match writing::write(entries, edition.number(), &mut buffer) {
        Ok(()) => &buffer[..length] == line,
        Err(_) => false,
    }
}

// Puts whether the readings gave the record back.
fn put_written(sheet: &mut Sheet<'_>, count: u64, is_back: bool)
    requires { HasRoom line_most sheet.old }
    ensures { Adds (written_line count is_back) line_most sheet.old sheet.new }
{
    sheet.put_number(count);
    if is_back {
        sheet.put_text(b" written same\n");
    } else {
        sheet.put_text(b" written other\n");
    }
}

// Puts all that is said of an accepted record.
fn put_record(
    sheet: &mut Sheet<'_>,
    count: u64,
    edition: Edition,
    entries: [Reading; ELEMENTS],
    line: &[u8],
)
    requires { HasRoom record_most sheet.old × (length line.now ≡ length_of edition) }
    ensures { Adds (read_text count line.now (Ok edition) entries) record_most sheet.old sheet.new }
{
    let sign = checking::call_sign_after(Ok(edition), line);
    let is_back = is_written_back(edition, entries, line);
    report_lines::put_accepted(sheet, count, edition);
    put_elements(sheet, count, entries);
    report_lines::put_call_sign(sheet, count, sign);
    put_written(sheet, count, is_back);
}

// Says of a record what it holds, as the one call that reads it answers. Is it refused?
pub fn tell(sheet: &mut Sheet<'_>, count: u64, line: &[u8]) -> bool
    requires { HasRoom record_most sheet.old }
    ensures { Says (read_said count line.now) (read_refused line.now) sheet.old sheet.new result }
{
    let all = reading::read(line);
    match all.answer {
        Ok(edition) => {
            put_record(sheet, count, edition, all.entries, line);
            false
        }
        Err(refusal) => {
            report_lines::put_refused(sheet, count, refusal);
            true
        }
    }
}
