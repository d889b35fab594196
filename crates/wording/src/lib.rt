// Texts and decimal numbers put on a sheet, for reports.
//
// A sheet is a lent buffer and knows how far it is written, so that a report is put together by one call
// after the other.
#![tactic(auto)]

mod sheet;

ghost use Rattle.std.specs.Prelude.{◌+◌, ◌≡◌, length};
ghost use Rattle.numerals.specs.Numerals.{spelled};
ghost use Rattle.wording.specs.Wording.{decimal, signed_decimal, numbered};
ghost use Rattle.wording.specs.Puts.{HasRoom, Adds};

pub use sheet::Sheet;

// How many decimal digits a number has. The loop divides, and counts no index.
fn places(n: u64) -> usize
    ensures { result ≡ length (decimal n) }
{
    let mut left = n;
    let mut k = 0;
    while 10 <= left {
        left = left / 10;
        k += 1;
    }
    k + 1
}

impl Sheet<'_> {
    // Puts a text.
    pub fn put_text(&mut self, text: &[u8])
        requires { HasRoom (length text.now) self.old }
        ensures { Adds text.now (length text.now) self.old self.new }
    {
        let end = self.end + text.len();
        let out = &mut *self.out;
        out[self.end..end].copy_from_slice(text);
        self.end = end;
    }

    // Puts the last `width` digits of a number, the last first. The base is a constant here, so that no
    // division by a variable is left.
    fn put_digits(&mut self, width: usize, n: u64)
        requires { HasRoom width self.old }
        ensures { Adds (spelled 10 48 width n) width self.old self.new }
    {
        let at = self.end;
        let out = &mut *self.out;
        let mut left = n;
        for k in (0..width).rev() {
            // no From makes a byte of a wider number
            out[at + k] = (48 + left % 10) as u8;
            left = left / 10;
        }
        self.end = at + width;
    }

    // Puts a number. Most numbers of a report have one digit or two: these are put without counting
    // digits first.
    pub fn put_number(&mut self, n: u64)
        requires { HasRoom 20 self.old }
        ensures { Adds (decimal n) 20 self.old self.new }
    {
        if n < 10 {
            return self.put_digits(1, n);
        }
        if n < 100 {
            return self.put_digits(2, n);
        }
        self.put_digits(places(n), n);
    }

    // Puts a word and a number after it.
    pub fn put_numbered(&mut self, word: &[u8], n: u64)
        requires { HasRoom (length word.now + 20) self.old }
        ensures { Adds (numbered word.now n) (length word.now + 20) self.old self.new }
    {
        self.put_text(word);
        self.put_number(n);
    }

    // Puts a number that may be below zero, with its sign before it.
    pub fn put_signed(&mut self, n: i64)
        requires { HasRoom 21 self.old }
        ensures { Adds (signed_decimal n) 21 self.old self.new }
    {
        let size = n.unsigned_abs();
        if n < 0 {
            self.put_numbered(b"-", size);
        } else {
            self.put_number(size);
        }
    }
}
