// What may be written in an element, for the check of a record.
//
// `page` of specs/Page.antt is the page. Here it stands an element a line, as there, but for the
// flags, which are alike. A glance tells most records; this is asked where it does not.
ghost use Rattle.std.specs.Prelude.{◌≡◌};
ghost use Rattle.layout.specs.Page.{in_edition, legal_texts};

use crate::Edition;
use text::LegalTexts;
use text::LegalTexts::{CallSign, DigitOr, Either, Letters, Nothing, OneOf, Printable, Within};

// Which of the three editions' texts are those of this one.
fn in_edition(edition: Edition, in1: LegalTexts, in3: LegalTexts, in4: LegalTexts) -> LegalTexts
    ensures { result ≡ in_edition edition in1 in3 in4 }
{
    match edition {
        Edition::One => in1,
        Edition::Three => in3,
        Edition::Four => in4,
    }
}

// The legal texts of element e, but for the blank; there are none where the edition has no element e.
#[tactic(auto, using(crate::proofs::LegalTexts::in_all), unfolding(crate::specs::Page::page, crate::specs::Page::element))]
pub fn legal_texts(edition: Edition, e: usize) -> LegalTexts
    ensures { result ≡ legal_texts edition e }
{
    match e {
        1 => Within(3, 5),
        2 => Within(0, 9999),
        3 => Within(1, 12),
        4 => Within(1, 31),
        5 => Within(0, 23),
        6 => in_edition(
            edition,
            Either(0, 3, 5, 8),
            OneOf(1, 3, 5, 7),
            OneOf(1, 3, 5, 7),
        ),
        7 => Within(0, 900),
        8 => Within(0, 1800),
        9 => Within(0, 3),
        10 => DigitOr(b'/'),
        11 => Either(0, 50, 56, 99),
        12 => DigitOr(b'/'),
        13 => Either(0, 36, 99, 99),
        14 => OneOf(0, 1, 3, 4),
        15 => Within(0, 99),
        16 => Within(0, 1),
        17 => Within(0, 999),
        18 => Either(0, 2, 5, 7),
        19 => Within(0, 999),
        20 => Either(0, 999, 8000, 9999),
        21 => Within(0, 99),
        22 => Within(0, 9),
        23 => Within(0, 9),
        24 => DigitOr(b'/'),
        25 => DigitOr(b'/'),
        26 => DigitOr(b'/'),
        27 => DigitOr(b'/'),
        28 => Within(0, 1),
        29 => Within(0, 999),
        30 => Within(0, 7),
        31 => Within(0, 9),
        32 => Within(0, 99),
        33 => Within(0, 99),
        34 => Either(0, 36, 99, 99),
        35 => Within(0, 99),
        36 => Within(0, 99),
        37 => Within(1, 5),
        38 => Within(0, 99),
        39 => Within(0, 4),
        40 => Within(0, 6),
        41 => in_edition(edition, Within(0, 9), Within(0, 9), Either(0, 6, 9, 9)),
        42 => CallSign,
        43 => in_edition(edition, Within(0, 99), Letters, Letters),
        44 => Printable,
        45 => Either(0, 6, 9, 9),
        46 => OneOf(1, 4, 7, 7),
        47 => Within(0, 4),
        48 => Within(1, 999),
        49 => Within(0, 9),
        50 => Either(0, 2, 5, 7),
        51 => Within(0, 999),
        52 => Within(0, 8),
        53 => Within(0, 999),
        54 => DigitOr(b'/'),
        55 => DigitOr(b'/'),
        56 => Either(0, 36, 99, 99),
        57 => Within(0, 99),
        58 => Within(0, 99),
        59 => DigitOr(b'/'),
        60 => DigitOr(b'/'),
        61 => DigitOr(b'/'),
        62 => DigitOr(b'/'),
        63 => DigitOr(b'/'),
        64 => in_edition(edition, Within(0, 8), Within(0, 8), DigitOr(b'A')),
        65 => in_edition(edition, Within(1, 1), Within(3, 3), Within(4, 4)),
        66..=85 => in_edition(
            edition,
            Either(0, 5, 9, 9),
            Either(0, 5, 9, 9),
            Either(0, 7, 9, 9),
        ),
        86 => in_edition(edition, Nothing, Within(1, 5), Within(1, 6)),
        87 => in_edition(edition, Nothing, Within(0, 360), Within(0, 360)),
        88 => in_edition(edition, Nothing, Within(0, 360), Within(0, 360)),
        89 => in_edition(edition, Nothing, Within(0, 99), Within(0, 99)),
        90 => in_edition(edition, Nothing, Within(0, 99), Within(0, 99)),
        91 => in_edition(
            edition,
            Nothing,
            Either(0, 99, 101, 199),
            Either(0, 99, 101, 199),
        ),
        92 => in_edition(edition, Nothing, Within(0, 360), Within(0, 360)),
        93 => in_edition(edition, Nothing, Within(0, 999), Within(0, 999)),
        94..=101 => in_edition(edition, Nothing, Either(0, 5, 9, 9), Either(0, 7, 9, 9)),
        _ => Nothing,
    }
}
