// The three editions of the IMMT record: their lengths, and the layout page.
//
// The definitions of specs/ are the document; the functions here are what they compute.
#![tactic(auto)]

pub mod legal_texts;
pub mod page;
pub mod widths;

ghost use Rattle.std.specs.Prelude.{◌≡◌};
ghost use Rattle.layout.specs.Editions.{edition_of, asked, edition_number, length_of, last_of};

// The most columns and the most elements that records of any edition have.
pub const LONGEST: usize = 159;

pub const ELEMENTS: usize = 101;

#[derive(Clone, Copy, PartialEq, Eq)]
pub enum Edition {
    One,
    Three,
    Four,
}

impl Edition {
    // The length of each edition and its last element. Those of 3 and 4 are alike.
    pub const LENGTH_1: usize = 131;

    pub const LENGTH_3: usize = LONGEST;

    pub const LENGTH_4: usize = LONGEST;

    pub const LAST_1: usize = 85;

    pub const LAST_3: usize = ELEMENTS;

    pub const LAST_4: usize = ELEMENTS;

    // The edition that the character in column 111 names, if it names one. No TryFrom, here and below: of a
    // byte and of a number it would differ by their types alone, and 1 as a byte names no edition.
    pub fn of_digit(b: u8) -> Option<Edition>
        ensures { result ≡ edition_of b }
    {
        match b {
            b'1' => Some(Edition::One),
            b'3' => Some(Edition::Three),
            b'4' => Some(Edition::Four),
            _ => None,
        }
    }

    // The edition that is asked for by its number, if there is one.
    pub fn of_number(n: u64) -> Option<Edition>
        ensures { result ≡ asked n }
    {
        match n {
            1 => Some(Edition::One),
            3 => Some(Edition::Three),
            4 => Some(Edition::Four),
            _ => None,
        }
    }

    // The number that the edition goes by.
    pub fn number(self) -> u64
        ensures { result ≡ edition_number self }
    {
        match self {
            Edition::One => 1,
            Edition::Three => 3,
            Edition::Four => 4,
        }
    }

    // How many columns its records have. This and the last element are constants of each edition, which
    // document 01 asks for: of the three this picks one, and `last` the other.
    pub fn length(self) -> usize
        ensures { result ≡ length_of self }
    {
        match self {
            Edition::One => Edition::LENGTH_1,
            Edition::Three => Edition::LENGTH_3,
            Edition::Four => Edition::LENGTH_4,
        }
    }

    // The number of its last element.
    pub fn last(self) -> usize
        ensures { result ≡ last_of self }
    {
        match self {
            Edition::One => Edition::LAST_1,
            Edition::Three => Edition::LAST_3,
            Edition::Four => Edition::LAST_4,
        }
    }
}
