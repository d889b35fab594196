// What check_report says of a record, put on a sheet.
#![tactic(auto)]

ghost use Rattle.wording.specs.Puts.{HasRoom};
ghost use Rattle.report_lines.specs.Says.{record_most, Says};
ghost use Rattle.check_lines.specs.Sentences.{check_said, check_refused};

use wording::Sheet;

// Says of a record what the check answers. Is it refused?
pub fn tell(sheet: &mut Sheet<'_>, count: u64, line: &[u8]) -> bool
    requires { HasRoom record_most sheet.old }
    ensures { Says (check_said count line.now) (check_refused line.now) sheet.old sheet.new result }
{
    let answer = checking::check(line);
    match answer {
        Ok(edition) => {
            let sign = checking::call_sign_after(answer, line);
            report_lines::put_accepted(sheet, count, edition);
            report_lines::put_call_sign(sheet, count, sign);
            false
        }
        Err(refusal) => {
            report_lines::put_refused(sheet, count, refusal);
            true
        }
    }
}
