// What a recast loses: blanked in a row of the target, and named as a set.
//
// All editions share columns, and the first byte of an element says whether it is lost. So both go by
// bytes: a few elements alone, and the flags eight at a time. `lost_in` of specs/LostBytes.antt says which
// byte is lost where; that it is lost exactly where `meanings` says so is proved in proofs/Table.antt.
#![tactic(auto)]

pub mod names;
mod spans;

ghost use Rattle.std.specs.Prelude.{true, false, cond, ◌≡◌, ℕ, ◌+◌, ◌≤◌, length};
ghost use Rattle.layout.specs.Editions.{length_of, last_of, longest_record, last_element};
ghost use Rattle.layout.specs.Page.{start_of, text_of, legal_text};
ghost use Rattle.blanking.specs.LostBytes.{blanked_text, is_fourth, changes, leaves, run, blanked_by, some, codes_lost, country_lost, version_lost, flags_lost, later_lost, shared_lost, blanked};

use layout::{Edition, widths};
use places::column_12::{Way, is_first};
use spans::Span;

// Is it edition 4? Named as its definition, which three contracts here cite; so is `is_first` of `places`.
fn is_fourth(edition: Edition) -> bool
    ensures { result ≡ is_fourth edition }
{
    edition == Edition::Four
}

// Is one of the two edition 4 and the other not?
fn is_change(way: Way) -> bool
    ensures { result ≡ changes way.from way.to }
{
    is_fourth(way.from) != is_fourth(way.to)
}

// Does the record leave edition 4?
fn is_leaving(way: Way) -> bool
    ensures { result ≡ leaves way.from way.to }
{
    is_fourth(way.from) && !is_fourth(way.to)
}

// A blank where the byte is lost.
fn left(b: u8, lost: bool) -> u8
    ensures { result ≡ cond lost 32 b }
{
    if lost { b' ' } else { b }
}

// Blanks the bytes in n columns.
fn blank_run(row: &mut [u8], at: usize, n: usize, bytes: Span)
    requires { at + n ≤ length row.old }
    ensures { row.new ≡ blanked_by (run at n bytes.0 bytes.1) row.old }
{
    for b in &mut row[at..at + n] {
        *b = left(*b, bytes.holds(*b));
    }
}

// Blanks the bytes in the elements from first to last.
fn blank(row: &mut [u8], first: usize, last: usize, bytes: Span)
    requires { ((first ≤ last) × (start_of (last + 1) ≤ length row.old)) × (last ≤ last_element) }
    ensures { row.new ≡ blanked (some first last bytes.0 bytes.1) row.old }
{
    let at = widths::start_of(first);
    blank_run(row, at, widths::start_of(last + 1) - at, bytes);
}

// Which bytes of which elements are lost stands in the calls here, and again in those of names.rt. As rows
// that both read it was slower to name what a record loses from 4 to 1: in a loop over the rows 276 ns
// against 137, with rows as constants 128 against 88.

// Blanks the codes of elements 40 and 41 that are lost. The bool of this step and of those below is that of
// its definition, `codes_lost` here: no step is taken where nothing of it is lost.
fn blank_codes(row: &mut [u8], changed: bool)
    requires { 131 ≤ length row.old }
    ensures { row.new ≡ blanked (codes_lost changed) row.old }
{
    if !changed {
        return;
    }
    blank(row, 40, 40, Span(b'1', b'1'));
    blank(row, 40, 40, Span(b'4', b'4'));
    blank(row, 41, 41, Span(b'4', b'4'));
    blank(row, 41, 41, Span(b'7', b'9'));
}

// Blanks the country.
fn blank_country(row: &mut [u8], crossing: bool)
    requires { 131 ≤ length row.old }
    ensures { row.new ≡ blanked (country_lost crossing) row.old }
{
    if !crossing {
        return;
    }
    blank(row, 43, 43, Span(33, 126));
}

// Blanks an FM code version that is lost.
fn blank_version(row: &mut [u8], back: bool)
    requires { 131 ≤ length row.old }
    ensures { row.new ≡ blanked (version_lost back) row.old }
{
    if !back {
        return;
    }
    blank(row, 64, 64, Span(b'9', b'9'));
    blank(row, 64, 64, Span(b'A', b'A'));
}

// Blanks the flags that are lost of those that every edition has: twenty, in three eights, of which the last
// two share four.
fn blank_flags(row: &mut [u8], back: bool)
    requires { 131 ≤ length row.old }
    ensures { row.new ≡ blanked (flags_lost back) row.old }
{
    if !back {
        return;
    }
    blank(row, 66, 73, Span(b'6', b'7'));
    blank(row, 74, 81, Span(b'6', b'7'));
    blank(row, 78, 85, Span(b'6', b'7'));
}

// Blanks what is lost of the elements that edition 1 does not have, where the target has them. In the shape
// of those above, each step has its own elements and its own definition of what it blanks.
fn blank_later(row: &mut [u8], back: bool)
    requires { longest_record ≤ length row.old }
    ensures { row.new ≡ blanked (later_lost false back) row.old }
{
    if !back {
        return;
    }
    blank(row, 86, 86, Span(b'6', b'6'));
    blank(row, 94, 101, Span(b'6', b'7'));
}

// Blanks what is lost of the elements that every edition has.
fn blank_shared(way: Way, row: &mut [u8])
    requires { 131 ≤ length row.old }
    ensures { row.new ≡ blanked (shared_lost way.from way.to) row.old }
{
    blank_codes(row, is_change(way));
    blank_country(row, way.is_crossing());
    blank_version(row, is_leaving(way));
    blank_flags(row, is_leaving(way));
}

// Blanks the elements that are lost, in a row of the target's length.
pub fn blank_lost(way: Way, row: &mut [u8])
    requires { (length row.old ≡ length_of way.to) × ((e : ℕ) → 1 ≤ e → e ≤ last_of way.to → legal_text way.from e (text_of e row.old) ≡ true) }
    ensures { (e : ℕ) → 1 ≤ e → e ≤ last_of way.to → text_of e row.new ≡ blanked_text way.from way.to row.old e }
{
    blank_shared(way, row);
    if is_first(way.to) {
        return;
    }
    blank_later(row, is_leaving(way));
}
