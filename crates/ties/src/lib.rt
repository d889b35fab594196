// The ties between elements.
//
// Each tie is a test of the texts of its elements. `holds` hands it those; ties 7 and 10 take their own.
// Columns that a record does not have are taken as blank, so no tie asks how long the record is.
#![tactic(auto)]

ghost use Rattle.std.specs.Prelude.{◌≡◌, not, ◌&&◌, ◌≤◌, eqb, length};
ghost use Rattle.std.specs.Bool.{beq};
ghost use Rattle.text.specs.First.{nonzero};
ghost use Rattle.ties.specs.Ties.{there, place_tie, octant_tie, minus, sign_tie, last_digit, tenths_fit, measured_fit, wind_tie, tie, first_broken};

use layout::{Edition, page};

// Is the element filled?
fn is_there(text: &[u8]) -> bool
    ensures { result ≡ there text.now }
{
    !text::is_blank(text)
}

// Tie 1.
#[tactic(auto, unfolding(crate::specs::Ties::place_tie))]
fn place_tie(digit: &[u8], latitude: &[u8], longitude: &[u8]) -> bool
    ensures { result ≡ place_tie digit.now latitude.now longitude.now }
{
    let at = is_there(latitude);
    is_there(digit) == at && at == is_there(longitude)
}

// Tie 2, in edition 1.
#[tactic(auto, unfolding(crate::specs::Ties::octant_tie))]
fn octant_holds(digit: &[u8], longitude: &[u8]) -> bool
    requires { (length digit.now ≤ 7) × (length longitude.now ≤ 7) }
    ensures { result ≡ octant_tie Edition.One digit.now longitude.now }
{
    text::is_blank(digit) || places::octant_fits(text::number_of(digit), text::number_of(longitude))
}

// Tie 2.
#[tactic(auto, unfolding(crate::specs::Ties::octant_tie))]
fn octant_tie(edition: Edition, digit: &[u8], longitude: &[u8]) -> bool
    requires { (length digit.now ≤ 7) × (length longitude.now ≤ 7) }
    ensures { result ≡ octant_tie edition digit.now longitude.now }
{
    match edition {
        Edition::One => octant_holds(digit, longitude),
        Edition::Three | Edition::Four => true,
    }
}

// Is it a minus before zeros?
fn minus_zero(sign: u32, value: u32) -> bool
    ensures { result ≡ (minus sign && eqb value 0) }
{
    matches!(sign, 1 | 6) && value == 0
}

// Ties 3 to 6.
#[tactic(auto, unfolding(crate::specs::Ties::sign_tie))]
fn sign_tie(sign: &[u8], value: &[u8]) -> bool
    requires { (length sign.now ≤ 7) × (length value.now ≤ 7) }
    ensures { result ≡ sign_tie sign.now value.now }
{
    is_there(sign) == is_there(value) && !minus_zero(text::number_of(sign), text::number_of(value))
}

// Does the temperature's last digit go with column 1?
#[tactic(auto, unfolding(crate::specs::Ties::last_digit))]
fn last_digit(format: u32, value: u32) -> bool
    ensures { result ≡ last_digit format value }
{
    match format {
        4 => matches!(value % 10, 0 | 5),
        5 => value % 10 == 0,
        _ => true,
    }
}

// The same of their texts.
fn tenths_fit(format: &[u8], value: &[u8]) -> bool
    requires { (length format.now ≤ 7) × (length value.now ≤ 7) }
    ensures { result ≡ tenths_fit format.now value.now }
{
    last_digit(text::number_of(format), text::number_of(value))
}

// The same of a dew point or a wet bulb: one that was computed may have any.
fn measured_fit(format: &[u8], sign: &[u8], value: &[u8]) -> bool
    requires { (length format.now ≤ 7) × ((length sign.now ≤ 7) × (length value.now ≤ 7)) }
    ensures { result ≡ measured_fit format.now sign.now value.now }
{
    2 < text::number_of(sign) || tenths_fit(format, value)
}

// Tie 7, which is the same in every edition. The four are joined as its definition joins them.
#[tactic(auto, unfolding(crate::specs::Ties::tie, crate::specs::Ties::digit_tie))]
fn digit_tie(line: &[u8]) -> bool
    ensures { (ed : Edition) → result ≡ tie ed line.now 7 }
{
    let format = page::text_of(line, 1);
    let air = tenths_fit(format, page::text_of(line, 17));
    let dew_point = measured_fit(format, page::text_of(line, 18), page::text_of(line, 19));
    let sea = tenths_fit(format, page::text_of(line, 29));
    let wet_bulb = measured_fit(format, page::text_of(line, 50), page::text_of(line, 51));
    air && (dew_point && (sea && wet_bulb))
}

// Ties 8 and 9.
#[tactic(auto, unfolding(crate::specs::Ties::wind_tie))]
fn wind_tie(speed: &[u8], indicator: &[u8]) -> bool
    ensures { result ≡ wind_tie speed.now indicator.now }
{
    text::is_blank(speed) || is_there(indicator)
}

// Tie 10, which is the same in every edition. What is blank says 0: the year 0 is a leap year, a month 0
// is none of the shorter ones, and a day 0 is past none.
#[tactic(auto, using(crate::proofs::Days::by_numbers), unfolding(crate::specs::Ties::tie))]
fn day_tie(line: &[u8]) -> bool
    ensures { (ed : Edition) → result ≡ tie ed line.now 10 }
{
    let year = text::number_of(page::text_of(line, 2));
    let month = text::number_of(page::text_of(line, 3));
    let day = text::number_of(page::text_of(line, 4));
    day <= calendar::last_day(calendar::is_leap(year), month)
}

// The number of the last tie.
const LAST: usize = 10;

// Does tie k hold? A tie goes by its number, which is the place of refusal 7.
#[tactic(auto, unfolding(crate::specs::Ties::tie))]
fn holds(edition: Edition, line: &[u8], k: usize) -> bool
    ensures { result ≡ tie edition line.now k }
{
    match k {
        1 => place_tie(
            page::text_of(line, 6),
            page::text_of(line, 7),
            page::text_of(line, 8),
        ),
        2 => octant_tie(edition, page::text_of(line, 6), page::text_of(line, 8)),
        3 => sign_tie(page::text_of(line, 16), page::text_of(line, 17)),
        4 => sign_tie(page::text_of(line, 18), page::text_of(line, 19)),
        5 => sign_tie(page::text_of(line, 28), page::text_of(line, 29)),
        6 => sign_tie(page::text_of(line, 50), page::text_of(line, 51)),
        7 => digit_tie(line),
        8 => wind_tie(page::text_of(line, 15), page::text_of(line, 14)),
        9 => wind_tie(page::text_of(line, 93), page::text_of(line, 14)),
        10 => day_tie(line),
        _ => true,
    }
}

// The lowest tie that is broken, if there is one.
pub fn first_broken(edition: Edition, line: &[u8]) -> Option<usize>
    ensures { result ≡ nonzero (first_broken edition line.now) }
{
    (1..=LAST).find(|&k| !holds(edition, line, k))
}
