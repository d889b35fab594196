// A glance at a record: is it surely accepted?
//
// Most records are, and one look over them with hardly a branch is enough. First the columns, then the
// numbers that have limits and the ties. A yes is proved; a no says nothing, and whoever asked has to
// look for what is wrong. A test answers true where something is.
#![tactic(auto)]

ghost use Rattle.std.specs.Prelude.{◌≡◌, true, false, not, ◌||◌, nat_le, ◌+◌, ◌≤◌, length};
ghost use Rattle.text.specs.Bytes.{word};
ghost use Rattle.layout.specs.Editions.{edition_of, length_of, longest_record};
ghost use Rattle.layout.specs.Page.{width_of, start_of, text_of, first_byte};
ghost use Rattle.glance.specs.Tests.{in_limit, neither, last_highest, plus_zero, top_digit, half_digit, last_fits, needs, octant_near, common};
ghost use Rattle.glance.specs.Sure.{dates, places, winds, falls, courses, Limits, Codes, Temperature, Temperatures, InEveryYear, Alike, Rest, Sure};

use layout::{Edition, page, widths};

// The bytes of element e as one number, the first highest. Digits stand in the order of the numbers that
// they say, and blanks below all of them, so that limits are set on the bytes themselves.
fn word_of(line: &[u8], e: usize) -> u64
    requires { start_of e + width_of e ≤ length line.now }
    ensures { result ≡ word (text_of e line.now) }
{
    numerals::word_of(page::full_text(line, e))
}

// Is the number past the top, or in the gap from `gap` up to `end`? A struct of the three would name them
// anew in each of fifteen calls, and make three lines of one.
#[tactic(auto, unfolding(crate::specs::Tests::in_limit))]
fn beyond(n: u64, top: u64, gap: u64, end: u64) -> bool
    ensures { result ≡ not (in_limit top gap end n) }
{
    (n > top) | ((n >= gap) & (n < end))
}

// Is the number in element e?
fn off(line: &[u8], e: usize, top: u64, gap: u64, end: u64) -> bool
    requires { start_of e + width_of e ≤ length line.now }
    ensures { result ≡ false → in_limit top gap end (word (text_of e line.now)) ≡ true }
{
    beyond(word_of(line, e), top, gap, end)
}

// Month 01 to 12, day 01 to 31, hour 00 to 23. A digit d stands here as 0x3d. What follows in this shape has
// other elements and limits, and nothing else: as rows of a table they would be these lines, and a loop.
fn dates_off(line: &[u8]) -> bool
    requires { 131 ≤ length line.now }
    ensures { result ≡ false → Limits dates line.now }
{
    off(line, 3, 0x3132, 0x3030, 0x3031)
        | off(line, 4, 0x3331, 0x3030, 0x3031)
        | off(line, 5, 0x3233, 0x3030, 0x3030)
}

// Latitude to 900, longitude to 1800.
fn places_off(line: &[u8]) -> bool
    requires { 131 ≤ length line.now }
    ensures { result ≡ false → Limits places line.now }
{
    off(line, 7, 0x393030, 0x303030, 0x303030) | off(line, 8, 0x31383030, 0x30303030, 0x30303030)
}

// VV not from 51 to 55, dd to 36 or 99, PPPP not from 1000 to 7999. A top that no bytes reach is none.
fn winds_off(line: &[u8]) -> bool
    requires { 131 ≤ length line.now }
    ensures { result ≡ false → Limits winds line.now }
{
    off(line, 11, 0xffff_ffff, 0x3531, 0x3536)
        | off(line, 13, 0xffff_ffff, 0x3337, 0x3939)
        | off(line, 20, 0xffff_ffff, 0x31303030, 0x38303030)
}

// The swell's dd as that of the wind, RRR not 000, the second swell's dd.
fn falls_off(line: &[u8]) -> bool
    requires { 131 ≤ length line.now }
    ensures { result ≡ false → Limits falls line.now }
{
    off(line, 34, 0xffff_ffff, 0x3337, 0x3939)
        | off(line, 48, 0xffff_ffff, 0x303030, 0x303031)
        | off(line, 56, 0xffff_ffff, 0x3337, 0x3939)
}

// From edition 3 on: HDG and COG to 360, hh to 199 and not 100, RWD to 360.
fn courses_off(line: &[u8]) -> bool
    requires { length line.now ≡ longest_record }
    ensures { result ≡ false → Limits courses line.now }
{
    off(line, 87, 0x333630, 0x303030, 0x303030)
        | off(line, 88, 0x333630, 0x303030, 0x303030)
        | off(line, 91, 0x313939, 0x313030, 0x313031)
        | off(line, 92, 0x333630, 0x303030, 0x303030)
}

// Is the byte one of two?
#[tactic(auto, unfolding(crate::specs::Tests::neither))]
fn one_of(b: u8, x: u8, y: u8) -> bool
    ensures { result ≡ not (neither x y b) }
{
    (b == x) | (b == y)
}

// Column 1 is there, and ix is neither 2 nor 3, which its run of digits holds.
fn codes_off(line: &[u8]) -> bool
    requires { 131 ≤ length line.now }
    ensures { result ≡ false → Codes line.now }
{
    (page::first_byte(line, 1) == b' ') | one_of(page::first_byte(line, 46), b'2', b'3')
}

// Four bytes as one number, the last highest, as the processor takes them at once. Nothing is asked of
// their order.
#[tactic(auto, unfolding(crate::specs::Tests::last_highest))]
fn backwards(line: &[u8], at: usize) -> u64
    requires { at + 4 ≤ length line.now }
    ensures { result ≡ last_highest line.now at }
{
    u64::from(u32::from_le_bytes([line[at], line[at + 1], line[at + 2], line[at + 3]]))
}

// Is it a minus before zeros, 1000 or 6000?
#[tactic(auto, unfolding(crate::specs::Tests::plus_zero))]
fn minus_zero(n: u64) -> bool
    ensures { result ≡ not (plus_zero n) }
{
    (n == 0x30303031) | (n == 0x30303036)
}

// The digit up to which column 1 takes every last digit.
#[tactic(auto, unfolding(crate::specs::Tests::top_digit))]
fn top_digit(format: u8) -> u8
    ensures { result ≡ top_digit format }
{
    if format == b'3' { b'9' } else { b'0' }
}

// The one last digit that it takes besides. With the digit above as one answer, each caller would take the
// two apart again.
#[tactic(auto, unfolding(crate::specs::Tests::half_digit))]
fn half_digit(format: u8) -> u8
    ensures { result ≡ half_digit format }
{
    if format == b'5' { b'0' } else { b'5' }
}

// Has a temperature, with a sign below 5, a last digit that column 1 does not take?
#[tactic(auto, unfolding(crate::specs::Tests::last_fits))]
fn last_off(sign: u8, last: u8, top: u8, half: u8) -> bool
    ensures { result ≡ not (nat_le 53 sign || last_fits top half last) }
{
    (sign < b'5') & (last > top) & (last != half)
}

// The sign in element e and the temperature after it: is it minus zero, or is its last digit off?
fn temperature(line: &[u8], e: usize, top: u8, half: u8) -> bool
    requires { start_of e + 4 ≤ length line.now }
    ensures { result ≡ false → Temperature line.now e top half }
{
    let s = widths::start_of(e);
    minus_zero(backwards(line, s)) | last_off(line[s], line[s + 3], top, half)
}

// Air, dew point, sea, wet bulb.
fn temperatures(line: &[u8]) -> bool
    requires { 131 ≤ length line.now }
    ensures { result ≡ false → Temperatures line.now }
{
    let top = top_digit(page::first_byte(line, 1));
    let half = half_digit(page::first_byte(line, 1));
    temperature(line, 16, top, half)
        | temperature(line, 18, top, half)
        | temperature(line, 28, top, half)
        | temperature(line, 50, top, half)
}

// Does the octant not go with the longitude? 1, 2, 6 and 7 have to reach 0900, and others must not pass
// it. A `match` of the four is slower: 43 ns for a glance at a record of edition 1, not 37.
#[tactic(auto, unfolding(crate::specs::Tests::octant_near))]
fn octant_off(octant: u8, longitude: u64) -> bool
    ensures { result ≡ not (octant_near octant longitude) }
{
    if text::is_among(u32::from(octant), 49, 50, 54, 55) {
        longitude < 0x30393030
    } else {
        longitude > 0x30393030
    }
}

// Is the first there without the second?
#[tactic(auto, unfolding(crate::specs::Tests::needs))]
fn alone(b: u8, w: u8) -> bool
    ensures { result ≡ not (needs b w) }
{
    (b != b' ') & (w == b' ')
}

// From edition 3 on besides: the quadrant is neither 2 nor 6, and RWS has its iw.
fn later_off(line: &[u8]) -> bool
    requires { length line.now ≡ longest_record }
    ensures { result ≡ false → Rest Edition.Three line.now }
{
    courses_off(line)
        | one_of(page::first_byte(line, 6), b'2', b'6')
        | alone(page::first_byte(line, 93), page::first_byte(line, 14))
}

// What an edition asks besides of its numbers and its ties.
fn rest(edition: Edition, line: &[u8]) -> bool
    requires { length line.now ≡ length_of edition }
    ensures { result ≡ false → Rest edition line.now }
{
    match edition {
        Edition::One => octant_off(page::first_byte(line, 6), word_of(line, 8)),
        Edition::Three => later_off(line),
        Edition::Four => later_off(line),
    }
}

// Is it a day that not every year has in that month: in February from the 29th on, in April, June,
// September and November the 31st? A leap day is left to a closer look.
#[tactic(auto, unfolding(crate::specs::Tests::common))]
fn rare(month: u64, day: u64) -> bool
    ensures { result ≡ not (common month day) }
{
    (day > 0x3238)
        & ((month == 0x3032)
            | ((day > 0x3330)
                & ((month == 0x3034) | (month == 0x3036) | (month == 0x3039) | (month == 0x3131))))
}

// The same of the record's month and day.
fn day_off(line: &[u8]) -> bool
    requires { 131 ≤ length line.now }
    ensures { result ≡ false → InEveryYear line.now }
{
    rare(word_of(line, 3), word_of(line, 4))
}

// What all editions ask alike of their numbers, their codes, their temperatures and their day. That a line
// has 131 columns is asked of each caller here: of a lent line with that invariant it is known only once
// its bytes are taken, and what is proved of the bytes has to be carried back to the line each time.
fn alike(line: &[u8]) -> bool
    requires { 131 ≤ length line.now }
    ensures { result ≡ false → Alike line.now }
{
    dates_off(line)
        | places_off(line)
        | winds_off(line)
        | falls_off(line)
        | codes_off(line)
        | temperatures(line)
        | day_off(line)
}

// Is a record of this length and this column 111 surely accepted?
fn is_sure(edition: Edition, line: &[u8]) -> bool
    requires { (length line.now ≡ length_of edition) × (edition_of (first_byte 65 line.now) ≡ Some edition) }
    ensures { result ≡ true → Sure edition line.now }
{
    if columns::shared(line) | alike(line) {
        return false;
    }
    if columns::own(edition, line) {
        return false;
    }
    !rest(edition, line)
}

// The edition of a record that is surely accepted, for every byte string. None says nothing.
pub fn edition_of(line: &[u8]) -> Option<Edition>
    ensures { (ed : Edition) → result ≡ Some ed → Sure ed line.now }
{
    if line.len() < Edition::LENGTH_1 {
        return None;
    }
    let edition = Edition::of_digit(page::first_byte(line, 65))?;
    if line.len() != edition.length() {
        return None;
    }
    if !is_sure(edition, line) {
        return None;
    }
    Some(edition)
}
