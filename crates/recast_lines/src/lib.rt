// The lines of the recast report, put on a sheet.
#![tactic(auto)]

ghost use Rattle.std.specs.Prelude.{◌+◌, ◌≤◌, length, is_err};
ghost use Rattle.element_sets.specs.Loops.{elements_in};
ghost use Rattle.wording.specs.Puts.{HasRoom, Adds};
ghost use Rattle.report_lines.specs.Says.{line_most, record_most, Says};
ghost use Rattle.recast_lines.specs.Sentences.{heading, not_held, numbers, lost, line_of, recast_line, recast_said, recast_refused};

use element_sets::ElementSet;
use layout::{Edition, LONGEST};
use recasting::Outcome;
use wording::Sheet;

// Puts the first line of a report.
pub fn put_heading(sheet: &mut Sheet<'_>, edition: Edition)
    requires { HasRoom line_most sheet.old }
    ensures { Adds (heading edition) line_most sheet.old sheet.new }
{
    sheet.put_numbered(b"recast to ", edition.number());
    sheet.put_text(b"\n");
}

// Puts the line of an input that asks for no edition that is held.
pub fn put_not_held(sheet: &mut Sheet<'_>)
    requires { HasRoom line_most sheet.old }
    ensures { Adds not_held line_most sheet.old sheet.new }
{
    sheet.put_text(b"recast refused 8\n");
}

// Puts the elements of a word of the set, rising: each is the lowest bit of those that are left. Bit 0 is
// element `first`.
fn put_word(sheet: &mut Sheet<'_>, word: u64, first: u64)
    requires { HasRoom (length (numbers (elements_in first 64 word)) + 20) sheet.old × (first ≤ 65) }
    ensures { Adds (numbers (elements_in first 64 word)) (length (numbers (elements_in first 64 word))) sheet.old sheet.new }
{
    let mut left = word;
    while left != 0 {
        sheet.put_numbered(b" ", first + u64::from(left.trailing_zeros()));
        left = left & (left - 1);
    }
}

// Puts the elements lost, rising. The second word has 37 of them, 65 to 101: a bit above is no element's.
fn put_lost(sheet: &mut Sheet<'_>, losses: ElementSet)
    requires { HasRoom 425 sheet.old }
    ensures { Adds (lost losses) 404 sheet.old sheet.new }
{
    put_word(sheet, losses.low, 1);
    put_word(sheet, losses.high % 0x20_0000_0000, 65);
}

// Puts the line of a record that is recast.
fn put_done(sheet: &mut Sheet<'_>, count: u64, losses: ElementSet)
    requires { HasRoom record_most sheet.old }
    ensures { Adds (line_of count losses) record_most sheet.old sheet.new }
{
    sheet.put_number(count);
    sheet.put_numbered(b" ok ", losses.count());
    put_lost(sheet, losses);
    sheet.put_text(b"\n");
}

// Puts the line of a record from its count and its outcome. Is it refused?
fn put_outcome(sheet: &mut Sheet<'_>, count: u64, outcome: Outcome) -> bool
    requires { HasRoom record_most sheet.old }
    ensures { Says (recast_line count outcome) (is_err outcome) sheet.old sheet.new result }
{
    match outcome {
        Ok(losses) => {
            put_done(sheet, count, losses);
            false
        }
        Err(refusal) => {
            report_lines::put_refused(sheet, count, refusal);
            true
        }
    }
}

// Says of a record what recasting it to an edition loses. Is it refused?
pub fn tell(sheet: &mut Sheet<'_>, count: u64, line: &[u8], edition: Edition) -> bool
    requires { HasRoom record_most sheet.old }
    ensures { Says (recast_said edition count line.now) (recast_refused edition line.now) sheet.old sheet.new result }
{
    let mut buffer = [0u8; LONGEST];
    let outcome = recasting::recast(line, edition.number(), &mut buffer);
    put_outcome(sheet, count, outcome)
}
