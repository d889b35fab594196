// The columns of edition 1 that are not alike in all editions.
ghost use Rattle.std.specs.Prelude.{◌≡◌, false, length};
ghost use Rattle.columns.specs.Tables.{Own};

use crate::{EARLY_FLAGS, Table, outside, part};
use layout::Edition;

// Columns 1 to 16: column 1, the date and the place.
const DATE: Table = Table {
    low: *b"3000000000000000",
    high: *b"5999999999939999",
    also: *b"3000000000050000",
    to: *b"5999999999989999",
    bond: *b".===.=.=.=.=====",
};

// Columns 65 to 80: the ice on the ship, the platform, the call sign and the country.
const SHIP: Table = Table {
    low: *b"0100000000000000",
    high: *b"9599469999999999",
    also: *b"0100000AAAAAAA00",
    to: *b"9599469ZZZZZZZ99",
    bond: *b"..=....==>>>>.=.",
};

// Columns 97 to 112: the second swell, the ice, the versions and the first flag.
const ICE: Table = Table {
    low: *b"0000000000000010",
    high: *b"9999999999999815",
    also: *b"//000000/////019",
    to: *b"//999999/////819",
    bond: *b"..=.=.=.........",
};

// Does a column that is edition 1's own hold what it may not?
pub fn own(line: &[u8]) -> bool
    requires { length line.now ≡ 131 }
    ensures { result ≡ false → Own Edition.One line.now }
{
    part(line, 0, &DATE)
        | part(line, 64, &SHIP)
        | part(line, 96, &ICE)
        | part(line, 112, &EARLY_FLAGS)
        | part(line, 114, &EARLY_FLAGS)
        | outside(line[line.len() - 1], b'0', b'5', b'9', b'9')
}
