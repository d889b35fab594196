// Checking a record, and showing its call sign.
//
// A call takes every byte string and comes back: the record is only read, and whatever is wrong with
// it is the answer. `checked` of specs/Check.antt says which answer.
#![tactic(auto)]

ghost use Rattle.std.specs.Prelude.{◌≡◌, ◌&&◌, ◌≤◌, true, length};
ghost use Rattle.std.specs.List.{fold};
ghost use Rattle.text.specs.Bytes.{printable};
ghost use Rattle.text.specs.First.{first_of, nonzero};
ghost use Rattle.layout.specs.Editions.{length_of};
ghost use Rattle.checking.specs.Check.{known_length, known_format, printable_at, checked_in, checked, answer_verdict, call_sign_of};

use layout::{Edition, page};
use refusals::{Refusal, Verdict};

// What checking a record answers: its edition, where the record has the columns, codes and ties of it.
pub type Answer = Result<Edition, Refusal>;

// What an answer says by its verdict.
pub fn verdict_of(answer: Answer) -> Verdict
    ensures { result ≡ answer_verdict answer }
{
    answer.map(|_| ())
}

// Does some edition have records that long?
fn is_known_length(n: usize) -> bool
    ensures { result ≡ known_length n }
{
    n == 131 || n == 159
}

// Is the byte a printable character?
fn is_printable(b: u8) -> bool
    ensures { result ≡ printable b }
{
    matches!(b, 32..=126)
}

// Is it a digit that column 1 may hold?
fn is_known_format(b: u8) -> bool
    ensures { result ≡ known_format b }
{
    matches!(b, b'3'..=b'5')
}

// Is every byte printable? Each is looked at, whatever those before it are, so that the processor takes all of
// sixteen at once.
fn are_printable(line: &[u8]) -> bool
    ensures { result ≡ fold (λ all byte. all && printable byte) true line.now }
{
    line.iter().fold(true, |all, b| all & is_printable(*b))
}

// The lowest column that holds no printable character. Sixteen columns are passed over at a time, as long as
// all of them are printable.
fn first_unprintable(line: &[u8]) -> Option<usize>
    ensures { result ≡ nonzero (first_of (length line.now) (printable_at line.now)) }
{
    let mut at = 0;
    while 16 <= line.len() - at {
        if !are_printable(&line[at..at + 16]) {
            break;
        }
        at += 16;
    }
    for c in at + 1..line.len() + 1 {
        if !is_printable(line[c - 1]) {
            return Some(c);
        }
    }
    None
}

// Rules 5, 6 and 7, which go by the edition.
fn check_in(edition: Edition, line: &[u8]) -> Answer
    ensures { result ≡ checked_in (Some edition) line.now }
{
    if line.len() != edition.length() {
        return Err(Refusal::EditionLength);
    }
    if let Some(e) = page::first_illegal(edition, line) {
        return Err(Refusal::Illegal(e));
    }
    if let Some(k) = ties::first_broken(edition, line) {
        return Err(Refusal::Broken(k));
    }
    Ok(edition)
}

// Goes through the rules one by one: accepted, or the first rule that the record breaks.
fn check_in_order(line: &[u8]) -> Answer
    ensures { result ≡ checked line.now }
{
    if !is_known_length(line.len()) {
        return Err(Refusal::Length);
    }
    if let Some(c) = first_unprintable(line) {
        return Err(Refusal::Unprintable(c));
    }
    if !is_known_format(page::first_byte(line, 1)) {
        return Err(Refusal::Format);
    }
    let Some(edition) = Edition::of_digit(page::first_byte(line, 65)) else {
        return Err(Refusal::Version);
    };
    check_in(edition, line)
}

// Checks a record: accepted, or the first rule that it breaks. Most records are accepted, and a glance
// tells; the rules are gone through one by one only where it does not.
pub fn check(line: &[u8]) -> Answer
    ensures { result ≡ checked line.now }
{
    match glance::edition_of(line) {
        Some(edition) => Ok(edition),
        None => check_in_order(line),
    }
}

// The call sign of a record of which the check's answer is known, as the part of the caller's own record
// that holds it: from column 72 to its last non-blank. Empty where it is missing, and where the record is
// refused.
pub fn call_sign_after(answer: Answer, line: &[u8]) -> &[u8]
    requires { (ed : Edition) → answer ≡ Ok ed → length line.now ≡ length_of ed }
    ensures result_value { result.now ≡ call_sign_of answer line.now }
    ensures result_len_bound { length result.now ≤ 7 }
{
    match answer {
        Ok(_) => {
            let part = page::full_text(line, 42);
            let n = text::filled(part);
            &part[..n]
        }
        Err(_) => &line[..0],
    }
}

// The same of any line.
pub fn show_call_sign(line: &[u8]) -> &[u8]
    ensures { result.now ≡ call_sign_of (checked line.now) line.now }
{
    call_sign_after(check(line), line)
}
