// Column 12 between editions.
//
// Between edition 1 and the others the lowest digit is taken that gives the same place and keeps tie 2.
ghost use Rattle.std.specs.Prelude.{true, ◌≡◌, ◌≤◌, ◌-◌};
ghost use Rattle.places.specs.Column12.{one_place, same_place, keeps_tie, may_stand, suits, lowest_digit, is_first, crosses};
ghost use Rattle.places.specs.Plain.{Plain, quadrant_of, near_octant, far_octant, octant_of, digit_in};

use crate::{Figures, Place, is_south, is_west, octant_fits, place_at};
use layout::Edition;

// The way of a record from one edition to another.
#[derive(Clone, Copy, PartialEq, Eq)]
pub struct Way {
    pub from: Edition,
    pub to: Edition,
}

impl Way {
    // Is one of the two edition 1 and the other not?
    pub fn is_crossing(self) -> bool
        ensures { result ≡ crosses self.from self.to }
    {
        (self.from == Edition::One) != (self.to == Edition::One)
    }
}

// May the digit stand in column 12 of the edition?
fn may_stand(edition: Edition, digit: u32) -> bool
    requires { digit ≤ 9 }
    ensures { result ≡ may_stand edition digit }
{
    match edition {
        Edition::One => text::is_either(digit, 0, 3, 5, 8),
        Edition::Three | Edition::Four => text::is_among(digit, 1, 3, 5, 7),
    }
}

// Are two places one, whatever digit gives them?
fn is_one_place(a: Place, b: Place) -> bool
    ensures { result ≡ one_place a b }
{
    a.latitude == b.latitude && a.longitude == b.longitude
}

// Does digit c of the edition gone to give the place that the figures give?
fn is_same_place(way: Way, figures: Figures, c: u32) -> bool
    ensures { result ≡ same_place way.from figures.digit way.to c figures.latitude figures.longitude }
{
    let other = Figures {
        digit: c,
        ..figures
    };
    is_one_place(place_at(way.from, figures), place_at(way.to, other))
}

// Does the digit keep tie 2? Of numbers, where `octant_tie` of `ties` asks the texts, which may be blank.
fn keeps_tie(edition: Edition, digit: u32, longitude: u32) -> bool
    ensures { result ≡ keeps_tie edition digit longitude }
{
    match edition {
        Edition::One => octant_fits(digit, longitude),
        Edition::Three | Edition::Four => true,
    }
}

// May digit c stand in column 12 for the digit of the figures?
fn is_suited(way: Way, figures: Figures, c: u32) -> bool
    requires { c ≤ 9 }
    ensures { result ≡ suits way.from way.to figures.digit figures.latitude figures.longitude c }
{
    may_stand(way.to, c)
        && is_same_place(way, figures, c)
        && keeps_tie(way.to, c, figures.longitude)
}

// The lowest digit of the edition gone to that gives the same place and keeps tie 2, found by trying one
// after the other. There is one for every place, so where no other will do it is the last.
fn first_digit(way: Way, figures: Figures) -> u8
    ensures { result ≡ lowest_digit way.from way.to figures.digit figures.latitude figures.longitude }
{
    for b in b'0'..b'9' {
        if is_suited(way, figures, u32::from(b - b'0')) {
            return b;
        }
    }
    b'9'
}

// Is the place off the equator and off the meridians of 0, 90 and 180 degrees?
fn is_plain(latitude: u32, longitude: u32) -> bool
    ensures { result ≡ true → Plain latitude longitude }
{
    latitude != 0 && longitude != 0 && longitude != 900 && longitude < 1800
}

// The quadrant of two hemispheres. This and the two tables of octants stand as the documents print them: as
// data they would be three rows of digits, to be found by a sum of two flags.
fn quadrant_of(south: bool, west: bool) -> u8
    ensures { result ≡ quadrant_of south west }
{
    match (south, west) {
        (false, false) => b'1',
        (true, false) => b'3',
        (true, true) => b'5',
        (false, true) => b'7',
    }
}

// The octant of two hemispheres, past 90 degrees or not.
fn octant_of(far: bool, south: bool, west: bool) -> u8
    ensures { result ≡ octant_of far south west }
{
    if far {
        far_octant(south, west)
    } else {
        near_octant(south, west)
    }
}

// The octant of two hemispheres up to 90 degrees.
fn near_octant(south: bool, west: bool) -> u8
    ensures { result ≡ near_octant south west }
{
    match (south, west) {
        (false, false) => b'3',
        (true, false) => b'8',
        (true, true) => b'5',
        (false, true) => b'0',
    }
}

// The octant of two hemispheres past 90 degrees.
fn far_octant(south: bool, west: bool) -> u8
    ensures { result ≡ far_octant south west }
{
    match (south, west) {
        (false, false) => b'2',
        (true, false) => b'7',
        (true, true) => b'6',
        (false, true) => b'1',
    }
}

// The digit of an edition for a plain place.
fn plain_digit(to: Edition, far: bool, south: bool, west: bool) -> u8
    ensures { result ≡ digit_in to far south west }
{
    match to {
        Edition::One => octant_of(far, south, west),
        Edition::Three | Edition::Four => quadrant_of(south, west),
    }
}

// The lowest digit of the edition gone to that gives the same place and keeps tie 2, as a character. A
// plain place has just one, which stands in a table.
pub fn lowest_digit(way: Way, figures: Figures) -> u8
    ensures { result ≡ lowest_digit way.from way.to figures.digit figures.latitude figures.longitude }
{
    if !is_plain(figures.latitude, figures.longitude) {
        return first_digit(way, figures);
    }
    let digit = u64::from(figures.digit);
    plain_digit(
        way.to,
        900 < figures.longitude,
        is_south(way.from, digit),
        is_west(way.from, digit),
    )
}

// Is it edition 1?
pub fn is_first(edition: Edition) -> bool
    ensures { result ≡ is_first edition }
{
    edition == Edition::One
}
