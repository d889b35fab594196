// The columns of edition 3 that are not alike in all editions.
ghost use Rattle.std.specs.Prelude.{◌≡◌, false, length};
ghost use Rattle.layout.specs.Editions.{longest_record};
ghost use Rattle.columns.specs.Tables.{Own};

use crate::{EARLY_FLAGS, LATER_DATE, Table, outside, part};
use layout::Edition;

// Columns 65 to 80: the ice on the ship, the platform, the call sign and the country.
const SHIP: Table = Table {
    low: *b"01000000000000AA",
    high: *b"95994699999999ZZ",
    also: *b"0100000AAAAAAAAA",
    to: *b"9599469ZZZZZZZZZ",
    bond: *b"..=....==>>>>.=.",
};

// Columns 97 to 112: the second swell, the ice, the versions and the first flag.
const ICE: Table = Table {
    low: *b"0000000000000030",
    high: *b"9999999999999835",
    also: *b"//000000/////039",
    to: *b"//999999/////839",
    bond: *b"..=.=.=.........",
};

// Columns 129 to 144: flags, the standard, HDG, COG, SOG, SLL and the beginning of hh.
const COURSE: Table = Table {
    low: *b"0001000000000000",
    high: *b"5555999999999999",
    also: *b"9991000000000000",
    to: *b"9995999999999999",
    bond: *b"....==.==.=.=.==",
};

// Columns 143 to 158, since one past the sixteen is looked at; 159 is asked apart: hh, RWD, RWS and the last flags.
const LAST: Table = Table {
    low: *b"0000000000000000",
    high: *b"9999999995555555",
    also: *b"0000000009999999",
    to: *b"9999999999999999",
    bond: *b"==.==.==........",
};

// Does a column that is edition 3's own hold what it may not? As edition 4's, over tables of its own: the
// tables are constants, and with them as parameters this would be six names for six names.
pub fn own(line: &[u8]) -> bool
    requires { length line.now ≡ longest_record }
    ensures { result ≡ false → Own Edition.Three line.now }
{
    part(line, 0, &LATER_DATE)
        | part(line, 64, &SHIP)
        | part(line, 96, &ICE)
        | part(line, 112, &EARLY_FLAGS)
        | part(line, 128, &COURSE)
        | part(line, 142, &LAST)
        | outside(line[line.len() - 1], b'0', b'5', b'9', b'9')
}
