// The senses in which editions take the codes of an element.
//
// Most elements mean their characters; a few codes are taken in another sense by another edition. What
// an element means stands in specs/Meaning.antt, and when it is lost in specs/Kept.antt and
// specs/Lost.antt: what is said there is the business of no function here, but of `blanking` and
// `recasting`.
#![tactic(auto)]

// The sense in which an edition takes a code.
#[derive(Clone, Copy)]
pub enum Sense {
    // the same across editions
    Alike,
    // column 70 in editions 1 and 3
    NationalLogbook,
    InternationalLogbook,
    // column 70 in edition 4
    PaperLogbook,
    ElectronicLogbook,
    // column 71 in editions 1 and 3
    AutomatedStation,
    Others,
    // column 71 in edition 4
    VosclimShip,
    OthersOrBuoy,
    // the country in edition 1, and in 3 and 4
    CountryNumber,
    CountryLetters,
}
