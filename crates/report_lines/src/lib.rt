// The lines that more than one report has, put on a sheet.
#![tactic(auto)]

ghost use Rattle.std.specs.Prelude.{◌≤◌, length};
ghost use Rattle.wording.specs.Puts.{HasRoom, Adds};
ghost use Rattle.report_lines.specs.Says.{line_most};
ghost use Rattle.report_lines.specs.Sentences.{refused_line, accepted_line, call_sign_line, totals};

use layout::Edition;
use refusals::Refusal;
use wording::Sheet;

// Puts the line of a record that is refused.
pub fn put_refused(sheet: &mut Sheet<'_>, count: u64, refusal: Refusal)
    requires { HasRoom line_most sheet.old }
    ensures { Adds (refused_line count refusal) line_most sheet.old sheet.new }
{
    sheet.put_number(count);
    sheet.put_numbered(b" refused ", refusal.number());
    sheet.put_numbered(b" ", refusal.place());
    sheet.put_text(b"\n");
}

// Puts the line of a record that is accepted.
pub fn put_accepted(sheet: &mut Sheet<'_>, count: u64, edition: Edition)
    requires { HasRoom line_most sheet.old }
    ensures { Adds (accepted_line count edition) line_most sheet.old sheet.new }
{
    sheet.put_number(count);
    sheet.put_numbered(b" ok edition ", edition.number());
    sheet.put_text(b"\n");
}

// Puts the line of a record's call sign, or none where it is empty. The sign is copied first: of bytes that it
// cannot tell from the sheet's own, the compiler asks which way round they are to be moved.
pub fn put_call_sign(sheet: &mut Sheet<'_>, count: u64, sign: &[u8])
    requires { HasRoom line_most sheet.old × (length sign.now ≤ 7) }
    ensures { Adds (call_sign_line count sign.now) line_most sheet.old sheet.new }
{
    if sign.is_empty() {
        return;
    }
    let mut room = [0u8; 7];
    let own = &mut room[..sign.len()];
    own.copy_from_slice(sign);
    sheet.put_number(count);
    sheet.put_text(b" call sign ");
    sheet.put_text(own);
    sheet.put_text(b"\n");
}

// Puts the last line: how many records there were, and how many of them were refused.
pub fn put_totals(sheet: &mut Sheet<'_>, records: u64, refused: u64)
    requires { HasRoom line_most sheet.old }
    ensures { Adds (totals records refused) line_most sheet.old sheet.new }
{
    sheet.put_numbered(b"records ", records);
    sheet.put_numbered(b" refused ", refused);
    sheet.put_text(b"\n");
}
