// The widths of the elements, the one list of the code: every column is worked out from it.
//
// A caller names an element and gets its columns, and no start stands anywhere as a number. The compiler works
// out a table of them, and where the number of the element stands in the code, it does the looking up too.
ghost use Rattle.std.specs.Prelude.{◌≡◌};
ghost use Rattle.layout.specs.Page.{width_of, start_of};

use crate::{ELEMENTS, LONGEST};

// Eight elements a row, two hexadecimal digits for each, from 0, which is none, to 101.
const WIDTHS_0: u64 = 0x00_01_04_02_02_02_01_03;

const WIDTHS_8: u64 = 0x04_01_01_02_01_02_01_02;

const WIDTHS_16: u64 = 0x01_03_01_03_04_02_01_01;

const WIDTHS_24: u64 = 0x01_01_01_01_01_03_01_01;

const WIDTHS_32: u64 = 0x02_02_02_02_02_01_02_01;

const WIDTHS_40: u64 = 0x01_01_07_02_01_01_01_01;

const WIDTHS_48: u64 = 0x03_01_01_03_01_03_01_01;

const WIDTHS_56: u64 = 0x02_02_02_01_01_01_01_01;

const WIDTHS_64: u64 = 0x01_01_01_01_01_01_01_01;

const WIDTHS_72: u64 = 0x01_01_01_01_01_01_01_01;

const WIDTHS_80: u64 = 0x01_01_01_01_01_01_01_03;

const WIDTHS_88: u64 = 0x03_02_02_03_03_03_01_01;

const WIDTHS_96: u64 = 0x01_01_01_01_01_01_00_00;

// The columns before each row. A row divided by 255 leaves the sum of its digits, since each place counts 256
// times the next and the sum is less than 255.
const BEFORE_0: u64 = 0;

const BEFORE_8: u64 = BEFORE_0 + WIDTHS_0 % 255;

const BEFORE_16: u64 = BEFORE_8 + WIDTHS_8 % 255;

const BEFORE_24: u64 = BEFORE_16 + WIDTHS_16 % 255;

const BEFORE_32: u64 = BEFORE_24 + WIDTHS_24 % 255;

const BEFORE_40: u64 = BEFORE_32 + WIDTHS_32 % 255;

const BEFORE_48: u64 = BEFORE_40 + WIDTHS_40 % 255;

const BEFORE_56: u64 = BEFORE_48 + WIDTHS_48 % 255;

const BEFORE_64: u64 = BEFORE_56 + WIDTHS_56 % 255;

const BEFORE_72: u64 = BEFORE_64 + WIDTHS_64 % 255;

const BEFORE_80: u64 = BEFORE_72 + WIDTHS_72 % 255;

const BEFORE_88: u64 = BEFORE_80 + WIDTHS_80 % 255;

const BEFORE_96: u64 = BEFORE_88 + WIDTHS_88 % 255;

// A row of the table: of each of its elements how many columns stand before it, which is the sum of the digits
// before its own, and how many it has, which is its own.
macro_rules! row {
    ($before:ident, $widths:ident) => { row!($before, $widths; 56 48 40 32 24 16 8 0) };
    ($before:ident, $widths:ident; $($after:literal)*) => {
        [$((
            ($before + ($widths >> $after >> 8) % 255) as u8,
            (($widths >> $after) % 256) as u8,
        )),*]
    };
}

// The table, eight elements a row as the widths are.
const COLUMNS: [[(u8, u8); 8]; 13] = [
    row!(BEFORE_0, WIDTHS_0),
    row!(BEFORE_8, WIDTHS_8),
    row!(BEFORE_16, WIDTHS_16),
    row!(BEFORE_24, WIDTHS_24),
    row!(BEFORE_32, WIDTHS_32),
    row!(BEFORE_40, WIDTHS_40),
    row!(BEFORE_48, WIDTHS_48),
    row!(BEFORE_56, WIDTHS_56),
    row!(BEFORE_64, WIDTHS_64),
    row!(BEFORE_72, WIDTHS_72),
    row!(BEFORE_80, WIDTHS_80),
    row!(BEFORE_88, WIDTHS_88),
    row!(BEFORE_96, WIDTHS_96),
];

// How many columns element e has.
pub fn width_of(e: usize) -> usize
    ensures { result ≡ width_of e }
{
    if ELEMENTS < e {
        return 0;
    }
    usize::from(COLUMNS[e / 8][e % 8].1)
}

// How many columns stand before element e.
pub fn start_of(e: usize) -> usize
    ensures { result ≡ start_of e }
{
    if ELEMENTS < e {
        return LONGEST;
    }
    usize::from(COLUMNS[e / 8][e % 8].0)
}
