// The elements of a record: the characters of each, and whether they are legal.
//
// `page` of specs/Page.antt is the page.
ghost use Rattle.std.specs.Prelude.{◌≡◌, ◌&&◌, ◌+◌, ◌<◌, ◌≤◌, length, take, drop};
ghost use Rattle.text.specs.Bytes.{blank};
ghost use Rattle.text.specs.First.{first_of, nonzero};
ghost use Rattle.layout.specs.Editions.{length_of, last_of};
ghost use Rattle.layout.specs.Page.{width_of, start_of, text_of, first_byte, may_be_blank, legal_text, legal};

use crate::widths::{start_of, width_of};
use crate::{Edition, legal_texts};

// As many of the columns from `start` on as the record has, at most `width`.
pub fn columns(line: &[u8], start: usize, width: usize) -> &[u8]
    ensures result_value { result.now ≡ take width (drop start line.now) }
    ensures result_len_bound { length result.now ≤ width }
{
    let rest = &line[start.min(line.len())..];
    &rest[..width.min(rest.len())]
}

// May element e be blank?
fn may_be_blank(e: usize) -> bool
    ensures { result ≡ may_be_blank e }
{
    e != 1 && e != 65
}

// Is the text of element e blank, where it may be?
fn is_missing(e: usize, text: &[u8]) -> bool
    ensures { result ≡ (may_be_blank e && blank text.now) }
{
    may_be_blank(e) && text::is_blank(text)
}

// Is it that, or legal in the edition?
fn is_legal(edition: Edition, e: usize, text: &[u8]) -> bool
    requires { length text.now ≤ 7 }
    ensures { result ≡ legal_text edition e text.now }
{
    is_missing(e, text) || text::is_one(legal_texts::legal_texts(edition, e), text)
}

// The lowest element that is neither blank nor legal, if there is one.
pub fn first_illegal(edition: Edition, line: &[u8]) -> Option<usize>
    requires { length line.now ≡ length_of edition }
    ensures { result ≡ nonzero (first_of (last_of edition) (legal edition line.now)) }
{
    let mut at = 0;
    for e in 1..=edition.last() {
        let end = at + width_of(e);
        if !is_legal(edition, e, &line[at..end]) {
            return Some(e);
        }
        at = end;
    }
    None
}

// The characters of element e: as many of its columns as the record has.
pub fn text_of(line: &[u8], e: usize) -> &[u8]
    ensures result_value { result.now ≡ text_of e line.now }
    ensures result_len_bound { length result.now ≤ 7 }
{
    columns(line, start_of(e), width_of(e))
}

// The same of a record that has all its columns.
pub fn full_text(line: &[u8], e: usize) -> &[u8]
    requires { start_of e + width_of e ≤ length line.now }
    ensures result_value { result.now ≡ text_of e line.now }
    ensures result_len_bound { length result.now ≤ 7 }
{
    let start = start_of(e);
    &line[start..start + width_of(e)]
}

// The byte in its first column.
pub fn first_byte(line: &[u8], e: usize) -> u8
    requires { start_of e < length line.now }
    ensures { result ≡ first_byte e line.now }
{
    line[start_of(e)]
}

// Is element e blank, where it may be, or legal?
pub fn is_legal_at(edition: Edition, line: &[u8], e: usize) -> bool
    ensures { result ≡ legal edition line.now e }
{
    is_legal(edition, e, text_of(line, e))
}
