// The columns of edition 4 that are not alike in all editions.
ghost use Rattle.std.specs.Prelude.{◌≡◌, false, length};
ghost use Rattle.layout.specs.Editions.{longest_record};
ghost use Rattle.columns.specs.Tables.{Own};

use crate::{LATER_DATE, Table, outside, part};
use layout::Edition;

// Columns 65 to 80: the ice on the ship, the platform, the call sign and the country.
const SHIP: Table = Table {
    low: *b"01000000000000AA",
    high: *b"95994669999999ZZ",
    also: *b"0100009AAAAAAAAA",
    to: *b"9599469ZZZZZZZZZ",
    bond: *b"..=....==>>>>.=.",
};

// Columns 97 to 112: the second swell, the ice, the versions and the first flag.
const ICE: Table = Table {
    low: *b"0000000000000040",
    high: *b"9999999999999947",
    also: *b"//000000/////A49",
    to: *b"//999999/////A49",
    bond: *b"..=.=.=.........",
};

// Columns 113 to 128: flags.
const FLAGS: Table = Table {
    low: *b"0000000000000000",
    high: *b"7777777777777777",
    also: *b"9999999999999999",
    to: *b"9999999999999999",
    bond: *b"................",
};

// Columns 129 to 144: flags, the standard, HDG, COG, SOG, SLL and the beginning of hh.
const COURSE: Table = Table {
    low: *b"0001000000000000",
    high: *b"7776999999999999",
    also: *b"9991000000000000",
    to: *b"9996999999999999",
    bond: *b"....==.==.=.=.==",
};

// Columns 143 to 158, since one past the sixteen is looked at; 159 is asked apart: hh, RWD, RWS and the last flags.
const LAST: Table = Table {
    low: *b"0000000000000000",
    high: *b"9999999997777777",
    also: *b"0000000009999999",
    to: *b"9999999999999999",
    bond: *b"==.==.==........",
};

// Does a column that is edition 4's own hold what it may not?
pub fn own(line: &[u8]) -> bool
    requires { length line.now ≡ longest_record }
    ensures { result ≡ false → Own Edition.Four line.now }
{
    part(line, 0, &LATER_DATE)
        | part(line, 64, &SHIP)
        | part(line, 96, &ICE)
        | part(line, 112, &FLAGS)
        | part(line, 128, &COURSE)
        | part(line, 142, &LAST)
        | outside(line[line.len() - 1], b'0', b'7', b'9', b'9')
}
