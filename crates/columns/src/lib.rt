// The columns of a record, sixteen at a time: does each hold a byte that it may, and go with the next?
//
// The tables are rows of characters to be held against the page: the lowest and the highest character
// of a column, a second run of characters, and the bond with the next column: '=' where both are blank
// or both are filled, '>' where no character stands after a blank, '.' where the next is free. A blank
// may stand anywhere. They are no second page: `part` promises something of rows that are the page's own
// alone, and that these are is computed. Each function answers true where something strays.
#![tactic(auto)]

pub mod four;
pub mod one;
pub mod three;

ghost use Rattle.std.specs.Prelude.{◌≡◌, ◌+◌, ◌≤◌, false, not, length};
ghost use Rattle.layout.specs.Editions.{length_of};
ghost use Rattle.columns.specs.Tables.{allowed, joined, Rows, Range, Shared, Own};

use faults::strays;
use layout::Edition;

// Is the byte neither blank nor in one of two runs?
#[tactic(auto, unfolding(crate::specs::Tables::allowed))]
pub fn outside(b: u8, low: u8, high: u8, also: u8, to: u8) -> bool
    ensures { low ≤ high → also ≤ to → result ≡ not (allowed low high also to b) }
{
    (b != b' ') & strays(b, low, high) & strays(b, also, to)
}

// May the two neighbours not stand together?
#[tactic(auto, unfolding(crate::specs::Tables::joined))]
fn apart(b: u8, next: u8, bond: u8) -> bool
    ensures { result ≡ not (joined bond b next) }
{
    ((b == b' ') != (next == b' ')) & ((bond == b'=') | ((bond >= b'=') & (b == b' ')))
}

// What sixteen columns may hold, a character of each row for each column.
#[derive(Clone, Copy)]
pub struct Table {
    // the first run
    pub low: [u8; 16],
    pub high: [u8; 16],
    // the second
    pub also: [u8; 16],
    pub to: [u8; 16],
    // with the next column
    pub bond: [u8; 16],
}

// Does one of the sixteen columns from `at` on hold what an edition does not allow, if the rows are the
// edition's? No byte makes a branch, so that the compiler takes all sixteen at once. The table is lent:
// by value it is written on the stack first, and a glance takes 57 ns and not 42.
pub fn part(line: &[u8], at: usize, table: &Table) -> bool
    requires { at + 17 ≤ length line.now }
    ensures { result ≡ false → (ed : Edition) → Rows ed at table.now → Range ed line.now at (at + 16) }
{
    let mut bad = false;
    for k in 0..16 {
        let b = line[at + k];
        let next = line[at + k + 1];
        bad |= outside(b, table.low[k], table.high[k], table.also[k], table.to[k])
            | apart(b, next, table.bond[k]);
    }
    bad
}

// Columns 17 to 32: the end of the longitude, height and sight, clouds, wind and air.
const WIND: Table = Table {
    low: *b"0000000000000000",
    high: *b"9993999999199199",
    also: *b"0000/00/00300000",
    to: *b"9993/99/99499199",
    bond: *b"==...=..=.>=.===",
};

// Columns 33 to 48: the end of air, dew point, pressure, weather and clouds.
const WEATHER: Table = Table {
    low: *b"0000000000000000",
    high: *b"9299999999999999",
    also: *b"0500000000000///",
    to: *b"9799999999999///",
    bond: *b".===.===.=......",
};

// Columns 49 to 64: the sea, its waves and the swell.
const SEA: Table = Table {
    low: *b"0000000000000000",
    high: *b"9199979999999999",
    also: *b"/000000000000000",
    to: *b"/199979999999999",
    bond: *b".===...=.=.=.=.=",
};

// Columns 81 to 96: rain, the wet bulb and the fall of the barometer.
const RAIN: Table = Table {
    low: *b" 010000000000000",
    high: *b"~644999929998999",
    also: *b" 970000050000000",
    to: *b"~974999979998999",
    bond: *b"....==..===..==.",
};

// Columns 1 to 16 from edition 3 on: column 1, the date and the place.
const LATER_DATE: Table = Table {
    low: *b"3000000000010000",
    high: *b"5999999999939999",
    also: *b"3000000000050000",
    to: *b"5999999999979999",
    bond: *b".===.=.=.=.=====",
};

// Sixteen flags up to edition 3.
const EARLY_FLAGS: Table = Table {
    low: *b"0000000000000000",
    high: *b"5555555555555555",
    also: *b"9999999999999999",
    to: *b"9999999999999999",
    bond: *b"................",
};

// Does a column that is alike in all editions hold what it may not?
pub fn shared(line: &[u8]) -> bool
    requires { 131 ≤ length line.now }
    ensures { result ≡ false → Shared line.now }
{
    part(line, 16, &WIND) | part(line, 32, &WEATHER) | part(line, 48, &SEA) | part(line, 80, &RAIN)
}

// Does a column that is an edition's own hold what it may not?
pub fn own(edition: Edition, line: &[u8]) -> bool
    requires { length line.now ≡ length_of edition }
    ensures { result ≡ false → Own edition line.now }
{
    match edition {
        Edition::One => one::own(line),
        Edition::Three => three::own(line),
        Edition::Four => four::own(line),
    }
}
