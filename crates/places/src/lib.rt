// Places: what column 12, latitude and longitude say together, and what stands in those columns for a
// place.
//
// A digit of column 12 gives two hemispheres, and in edition 1 a range of longitudes with them. What the
// columns of latitude and longitude say as numbers are their figures here.
#![tactic(auto)]

pub mod column_12;

ghost use Rattle.std.specs.Prelude.{◌≡◌, ◌^◌, ◌<◌};
ghost use Rattle.places.specs.Places.{south, west, octant_fits, hundredths, tenths, east, place_at, latitude_figure, longitude_figure};

use layout::Edition;

// Where the ship was: hundredths of a degree of latitude, negative in the south, and of east longitude
// from 0 to 35999, and the digit of column 12 as it stands.
#[derive(Clone, Copy, PartialEq, Eq)]
pub struct Place {
    pub latitude: i64,
    pub longitude: u64,
    pub digit: u64,
}

// What stands in the columns of a place, as numbers: the digit of column 12, and the figures of latitude
// and longitude.
#[derive(Clone, Copy, PartialEq, Eq)]
pub struct Figures {
    pub digit: u32,
    pub latitude: u32,
    pub longitude: u32,
}

// Does the digit give the southern hemisphere?
#[tactic(auto, unfolding(crate::specs::Places::south))]
fn is_south(edition: Edition, digit: u64) -> bool
    ensures { result ≡ south edition digit }
{
    match edition {
        Edition::One => 5 <= digit,
        Edition::Three | Edition::Four => matches!(digit, 3 | 5),
    }
}

// Does it give the western? That of a given place may be any number.
#[tactic(auto, unfolding(crate::specs::Places::west))]
fn is_west(edition: Edition, digit: u64) -> bool
    ensures { result ≡ west edition digit }
{
    match edition {
        Edition::One => matches!(digit, 0 | 1 | 5 | 6),
        Edition::Three | Edition::Four => matches!(digit, 5 | 7),
    }
}

// Does the longitude lie in the octant's range?
#[tactic(auto, unfolding(crate::specs::Places::octant_fits))]
pub fn octant_fits(octant: u32, longitude: u32) -> bool
    ensures { result ≡ octant_fits octant longitude }
{
    match octant {
        0 | 3 | 5 | 8 => longitude <= 900,
        _ => 900 <= longitude,
    }
}

// Hundredths of a degree in a tenth: the columns count tenths, and a place hundredths.
const UNIT: u64 = 10;

// The whole circle, 360.0 degrees.
const CIRCLE: u64 = 3600 * UNIT;

// A figure of the columns in hundredths.
fn hundredths_of(tenths: u32) -> u64
    ensures value { result ≡ hundredths tenths }
    ensures upper_bound { result < 2 ^ 63 }
{
    u64::from(tenths) * UNIT
}

// The whole tenths in so many hundredths.
fn tenths_of(hundredths: u64) -> u64
    ensures { result ≡ tenths hundredths }
{
    hundredths / UNIT
}

// East longitude from the longitude of a hemisphere, and back again.
fn east_of(is_west: bool, longitude: u64) -> u64
    ensures { result ≡ east is_west longitude }
{
    if is_west {
        CIRCLE.saturating_sub(longitude) % CIRCLE
    } else {
        longitude
    }
}

// The place that figures of an edition give.
pub fn place_at(edition: Edition, figures: Figures) -> Place
    ensures { result ≡ place_at edition figures.digit figures.latitude figures.longitude }
{
    let digit = u64::from(figures.digit);
    Place {
        latitude: signs::signed_of(is_south(edition, digit), hundredths_of(figures.latitude)),
        longitude: east_of(is_west(edition, digit), hundredths_of(figures.longitude)),
        digit,
    }
}

// The figure of latitude that stands in the columns for a place: its whole tenths.
pub fn latitude_figure(place: Place) -> u64
    ensures { result ≡ latitude_figure place }
{
    tenths_of(place.latitude.unsigned_abs())
}

// The figure of longitude, by the hemisphere that the place's digit gives.
pub fn longitude_figure(edition: Edition, place: Place) -> u64
    ensures { result ≡ longitude_figure edition place }
{
    tenths_of(east_of(is_west(edition, place.digit), place.longitude))
}
