// Tests on the bytes of some columns: are they blank, digits, a number within limits, a call sign?
//
// Every function takes the columns alone, as a part of the record. What a record's columns are is
// the business of `layout`. The contracts cite `specs/Bytes.antt` and `specs/LegalTexts.antt`.
#![tactic(auto)]

ghost use Rattle.std.specs.Prelude.{◌≡◌, ◌≤◌, ◌-◌, length, take};
ghost use Rattle.text.specs.Bytes.{every, between, either, blank, number, run, to_last_non_blank};
ghost use Rattle.text.specs.LegalTexts.{among, in_call_sign, call_sign, allows, digits_in};

// The texts that an element may hold where it is not blank.
#[derive(Clone, Copy)]
pub enum LegalTexts {
    // none: the edition has no such element
    Nothing,
    // printable characters
    Printable,
    // letters A to Z
    Letters,
    // three or more letters and digits, left, and then blanks
    CallSign,
    // a digit, or the byte given in its place
    DigitOr(u8),
    // digits whose number is from the first to the second
    Within(u32, u32),
    // digits whose number is from the first to the second or from the third to the fourth
    Either(u32, u32, u32, u32),
    // digits whose number is one of four
    OneOf(u32, u32, u32, u32),
}

// Is every byte one from lo to hi?
pub fn all_between(text: &[u8], lo: u8, hi: u8) -> bool
    ensures { result ≡ every (between lo hi) text.now }
{
    text.iter().all(|b| lo <= *b && *b <= hi)
}

// Is it blank over all of the columns, that is, missing?
pub fn is_blank(text: &[u8]) -> bool
    ensures { result ≡ blank text.now }
{
    all_between(text, 32, 32)
}

// The number that up to seven digits say.
pub fn number_of(text: &[u8]) -> u32
    requires { length text.now ≤ 7 }
    ensures { result ≡ number text.now }
{
    let mut n = 0;
    for b in text {
        n = n * 10 + u32::from(b.saturating_sub(b'0'));
    }
    n
}

// Is the number from a to b?
fn is_between(n: u32, a: u32, b: u32) -> bool
    ensures { result ≡ between a b n }
{
    a <= n && n <= b
}

// Is the number from a to b or from c to d?
pub fn is_either(n: u32, a: u32, b: u32, c: u32, d: u32) -> bool
    ensures { result ≡ either a b c d n }
{
    is_between(n, a, b) || is_between(n, c, d)
}

// Is the number one of four?
pub fn is_among(n: u32, a: u32, b: u32, c: u32, d: u32) -> bool
    ensures { result ≡ among a b c d n }
{
    [a, b, c, d].contains(&n)
}

// How many characters of a call sign stand at the front?
fn front(text: &[u8]) -> usize
    ensures { result ≡ run in_call_sign text.now }
{
    text.iter()
        .take_while(|b| b.is_ascii_digit() || b.is_ascii_uppercase())
        .count()
}

// Is it a call sign?
#[tactic(auto, using(crate::proofs::Every::run_fits))]
fn is_call_sign(text: &[u8]) -> bool
    ensures { result ≡ call_sign text.now }
{
    let n = front(text);
    3 <= n && is_blank(&text[n..])
}

// Is every byte a digit, or x?
fn is_digit_or(text: &[u8], x: u8) -> bool
    ensures { result ≡ allows (LegalTexts.DigitOr x) text.now }
{
    text.iter().all(|b| b.is_ascii_digit() || *b == x)
}

// The number that up to seven bytes say, if they are digits.
fn digits_in(text: &[u8]) -> Option<u32>
    requires { length text.now ≤ 7 }
    ensures { result ≡ digits_in text.now }
{
    all_between(text, 48, 57).then(|| number_of(text))
}

// Are these digits whose number is from a to b?
fn is_within(text: &[u8], a: u32, b: u32) -> bool
    requires { length text.now ≤ 7 }
    ensures { result ≡ allows (LegalTexts.Within a b) text.now }
{
    digits_in(text).is_some_and(|n| is_between(n, a, b))
}

// Are these digits whose number is from a to b or from c to d?
fn is_in_either(text: &[u8], a: u32, b: u32, c: u32, d: u32) -> bool
    requires { length text.now ≤ 7 }
    ensures { result ≡ allows (LegalTexts.Either a b c d) text.now }
{
    digits_in(text).is_some_and(|n| is_either(n, a, b, c, d))
}

// Are these digits whose number is one of four? As the two before: the test differs, and stands here by name.
fn is_one_of(text: &[u8], a: u32, b: u32, c: u32, d: u32) -> bool
    requires { length text.now ≤ 7 }
    ensures { result ≡ allows (LegalTexts.OneOf a b c d) text.now }
{
    digits_in(text).is_some_and(|n| is_among(n, a, b, c, d))
}

// Is the text one of these texts?
#[tactic(auto, unfolding(crate::specs::LegalTexts::allows))]
pub fn is_one(texts: LegalTexts, text: &[u8]) -> bool
    requires { length text.now ≤ 7 }
    ensures { result ≡ allows texts text.now }
{
    match texts {
        LegalTexts::Nothing => false,
        LegalTexts::Printable => all_between(text, 32, 126),
        LegalTexts::Letters => all_between(text, 65, 90),
        LegalTexts::CallSign => is_call_sign(text),
        LegalTexts::DigitOr(x) => is_digit_or(text, x),
        LegalTexts::Within(a, b) => is_within(text, a, b),
        LegalTexts::Either(a, b, c, d) => is_in_either(text, a, b, c, d),
        LegalTexts::OneOf(a, b, c, d) => is_one_of(text, a, b, c, d),
    }
}

// How many bytes stand up to the last that is not blank?
pub fn filled(text: &[u8]) -> usize
    ensures upper_bound { result ≤ length text.now }
    ensures text_value { take result text.now ≡ to_last_non_blank text.now }
{
    for n in (0..text.len()).rev() {
        if text[n] != b' ' {
            return n + 1;
        }
    }
    0
}
