// Numbers as the bytes of some columns: a word read from them, and a number spelled into them.
//
// One loop spells digits, bytes and blanks alike: they differ in the base and in the byte that stands
// for nought.
#![tactic(auto)]

ghost use Rattle.std.specs.Prelude.{◌≡◌, ◌+◌, ◌≤◌, ◌<◌, length};
ghost use Rattle.text.specs.Bytes.{word};
ghost use Rattle.numerals.specs.Numerals.{in_digits, in_bytes, in_blanks, spell, placed};

// A number, and the base and the nought that it is spelled with. No enum of the three ways: `put` would only
// match it back to these two numbers, and `spell` says them once for all three.
#[derive(Clone, Copy)]
pub struct Numeral {
    pub base: u64,
    pub nought: u64,
    pub number: u64,
}

impl Numeral {
    // A number in decimal digits.
    pub fn digits(n: u64) -> Numeral
        ensures { result ≡ in_digits n }
    {
        Numeral {
            base: 10,
            nought: 48,
            number: n,
        }
    }

    // A number in bytes of any kind.
    pub fn bytes(n: u64) -> Numeral
        ensures { result ≡ in_bytes n }
    {
        Numeral {
            base: 256,
            nought: 0,
            number: n,
        }
    }

    // Blanks, which are the one digit of base 1.
    pub fn blanks() -> Numeral
        ensures { result ≡ in_blanks }
    {
        Numeral {
            base: 1,
            nought: 32,
            number: 0,
        }
    }
}

// Up to seven bytes as one number, the first byte highest. Not one function with `text::number_of`, which
// is narrower (u32) and takes 48 from each byte: base, nought and type would all be parameters of five lines.
pub fn word_of(text: &[u8]) -> u64
    requires { length text.now ≤ 7 }
    ensures { result ≡ word text.now }
{
    let mut n = 0;
    for b in text {
        n = n * 256 + u64::from(*b);
    }
    n
}

// Spells a number into the columns from `at` on, the last digit first.
pub fn put(buffer: &mut [u8], at: usize, width: usize, numeral: Numeral)
    requires { (at + width ≤ length buffer.old) × ((0 < numeral.base) × (numeral.nought + numeral.base ≤ 256)) }
    ensures { buffer.new ≡ placed at (spell width numeral) buffer.old }
{
    let mut n = numeral.number;
    for k in (0..width).rev() {
        // no From makes a byte of a wider number
        buffer[at + k] = (numeral.nought + n % numeral.base) as u8;
        n /= numeral.base;
    }
}
