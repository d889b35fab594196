// The calendar: Gregorian, by the same rule for every year from 0000 on.
#![tactic(auto)]

ghost use Rattle.std.specs.Prelude.{◌≡◌};
ghost use Rattle.calendar.specs.Calendar.{leaps, last_day};

// Is it a leap year?
#[tactic(auto, unfolding(crate::specs::Calendar::leaps))]
pub fn is_leap(year: u32) -> bool
    ensures { result ≡ leaps year }
{
    year % 4 == 0 && (year % 100 != 0 || year % 400 == 0)
}

// The last day of a month, January being 1, in a leap year or in another.
#[tactic(auto, unfolding(crate::specs::Calendar::last_day))]
pub fn last_day(leap: bool, month: u32) -> u32
    ensures { result ≡ last_day leap month }
{
    match month {
        2 => if leap { 29 } else { 28 },
        4 | 6 | 9 | 11 => 30,
        _ => 31,
    }
}
