// The elements lost, named as a set of bits: element e is bit e - 1 of the first word, or bit e - 65 of
// the second. The bits come from the bytes of the record, with no branch for each element.
ghost use Rattle.std.specs.Prelude.{true, false, cond, ◌≡◌, ℕ, ◌+◌, ◌*◌, ◌^◌, ◌<◌, ◌≤◌, length};
ghost use Rattle.text.specs.Bytes.{between};
ghost use Rattle.element_sets.specs.ElementSets.{bits, set_of};
ghost use Rattle.layout.specs.Editions.{length_of, last_of, longest_record};
ghost use Rattle.layout.specs.Page.{start_of, text_of, first_byte, legal_text};
ghost use Rattle.places.specs.Column12.{is_first};
ghost use Rattle.meanings.specs.Kept.{lost_at};
ghost use Rattle.blanking.specs.LostBytes.{leaves, codes_lost, country_lost, version_lost, flags_lost, later_lost, named};

use crate::spans::Span;
use crate::{is_change, is_leaving};
use element_sets::ElementSet;
use layout::page;
use places::column_12::Way;

// The bit, where it is lost, and otherwise none.
fn bit(lost: bool, mask: u8) -> u8
    ensures { result ≡ cond lost mask 0 }
{
    if lost { mask } else { 0 }
}

// Eight bits moved up to their place in a word.
fn moved(w: u8, by: u64) -> u64
    requires { by ≤ 56 }
    ensures { result ≡ w * 2 ^ by }
{
    u64::from(w) << by
}

// The bit of an element whose first byte is one of those given.
fn name_one(line: &[u8], e: usize, bytes: Span, mask: u64) -> u64
    requires { start_of e < length line.now }
    ensures { result ≡ cond (between bytes.0 bytes.1 (first_byte e line.now)) mask 0 }
{
    if bytes.holds(page::first_byte(line, e)) {
        mask
    } else {
        0
    }
}

// The bits of the eight elements from e on whose first bytes are among those given.
fn name_eight(line: &[u8], e: usize, bytes: Span) -> u8
    requires { ((1 ≤ e) × (e ≤ 94)) × (start_of (e + 8) ≤ length line.now) }
    ensures { result ≡ bits (λ k. between bytes.0 bytes.1 (first_byte k line.now)) e 8 }
{
    let mut w: u8 = 0;
    for k in 0..8 {
        w |= bit(bytes.holds(page::first_byte(line, e + k)), 1 << k);
    }
    w
}

// The elements and their bytes are those of lib.rt, which says why they stand twice.

// Elements 40 and 41.
fn name_codes(line: &[u8], changed: bool) -> u64
    requires { 131 ≤ length line.now }
    ensures { result ≡ bits (named (codes_lost changed) line.now) 1 64 }
{
    if !changed {
        return 0;
    }
    let source = name_one(line, 40, Span(b'1', b'1'), 1 << 39)
        | name_one(line, 40, Span(b'4', b'4'), 1 << 39);
    source
        | name_one(line, 41, Span(b'4', b'4'), 1 << 40)
        | name_one(line, 41, Span(b'7', b'9'), 1 << 40)
}

// Element 43.
fn name_country(line: &[u8], crossing: bool) -> u64
    requires { 131 ≤ length line.now }
    ensures { result ≡ bits (named (country_lost crossing) line.now) 1 64 }
{
    if !crossing {
        return 0;
    }
    name_one(line, 43, Span(33, 126), 1 << 42)
}

// Element 64.
fn name_version(line: &[u8], back: bool) -> u64
    requires { 131 ≤ length line.now }
    ensures { result ≡ bits (named (version_lost back) line.now) 1 64 }
{
    if !back {
        return 0;
    }
    name_one(line, 64, Span(b'9', b'9'), 1 << 63) | name_one(line, 64, Span(b'A', b'A'), 1 << 63)
}

// Elements 66 to 85.
fn name_flags(line: &[u8], back: bool) -> u64
    requires { 131 ≤ length line.now }
    ensures { result ≡ bits (named (flags_lost back) line.now) 65 37 }
{
    if !back {
        return 0;
    }
    let first = moved(name_eight(line, 66, Span(b'6', b'7')), 1);
    let second = moved(name_eight(line, 74, Span(b'6', b'7')), 9);
    first | second | moved(name_eight(line, 78, Span(b'6', b'7')), 13)
}

// Elements 86 to 101 in a target that has them.
fn name_later(line: &[u8], back: bool) -> u64
    requires { longest_record ≤ length line.now }
    ensures { result ≡ bits (named (later_lost false back) line.now) 65 37 }
{
    if !back {
        return 0;
    }
    name_one(line, 86, Span(b'6', b'6'), 1 << 21)
        | moved(name_eight(line, 94, Span(b'6', b'7')), 29)
}

// Elements 86 to 101 in a target that does not have them.
fn name_filled(line: &[u8]) -> u64
    requires { longest_record ≤ length line.now }
    ensures { result ≡ bits (named (later_lost true false) line.now) 65 37 }
{
    moved(name_eight(line, 86, Span(33, 126)), 21) | moved(name_eight(line, 94, Span(33, 126)), 29)
}

// Elements 86 to 101, which a record of edition 1 does not have.
fn name_last(way: Way, line: &[u8]) -> u64
    requires { length line.now ≡ length_of way.from }
    ensures { result ≡ bits (named (later_lost (is_first way.to) (leaves way.from way.to)) line.now) 65 37 }
{
    if places::column_12::is_first(way.from) {
        return 0;
    }
    if places::column_12::is_first(way.to) {
        return name_filled(line);
    }
    name_later(line, is_leaving(way))
}

// The elements that a recast of the record loses.
pub fn losses_of(way: Way, line: &[u8]) -> ElementSet
    requires { (length line.now ≡ length_of way.from) × ((e : ℕ) → 1 ≤ e → e ≤ last_of way.from → legal_text way.from e (text_of e line.now) ≡ true) }
    ensures { result ≡ set_of (lost_at way.from way.to line.now) }
{
    let back = is_leaving(way);
    let codes = name_codes(line, is_change(way));
    let country = name_country(line, way.is_crossing());
    let low = codes | country | name_version(line, back);
    let high = name_flags(line, back) | name_last(way, line);
    ElementSet { low, high }
}
