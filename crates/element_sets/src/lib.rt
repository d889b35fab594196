// A set of elements, such as those that a recast loses, one bit for each element, in two words: element 1
// is bit 0 of the first word, element 65 bit 0 of the second.
//
// The contracts cite `specs/ElementSets.antt`; that the set is the list of lost elements, and its number
// of ones how many they are, is proved in `proofs/Demand3Losses.antt`.
#![tactic(auto)]

ghost use Rattle.std.specs.Prelude.{◌≡◌};
ghost use Rattle.element_sets.specs.ElementSets.{no_elements, with_element, has_element, count_of, lowest_of};

#[derive(Clone, Copy, PartialEq, Eq)]
pub struct ElementSet {
    pub low: u64,
    pub high: u64,
}

impl ElementSet {
    // The set of no element.
    pub fn none() -> ElementSet
        ensures { result ≡ no_elements }
    {
        ElementSet { low: 0, high: 0 }
    }

    // The set with element e besides. A number that has no bit leaves it as it is.
    #[tactic(auto, unfolding(crate::specs::ElementSets::with_element))]
    pub fn with(self, e: usize) -> ElementSet
        ensures { result ≡ with_element self e }
    {
        match e {
            1..=64 => ElementSet {
                low: self.low | 1 << (e - 1),
                high: self.high,
            },
            65..=128 => ElementSet {
                low: self.low,
                high: self.high | 1 << (e - 65),
            },
            _ => self,
        }
    }

    // Is element e in the set? A number that has no bit is not.
    #[tactic(auto, unfolding(crate::specs::ElementSets::has_element))]
    pub fn has(self, e: usize) -> bool
        ensures { result ≡ has_element self e }
    {
        match e {
            1..=64 => (self.low >> (e - 1)) & 1 == 1,
            65..=128 => (self.high >> (e - 65)) & 1 == 1,
            _ => false,
        }
    }

    // How many elements are in the set.
    pub fn count(self) -> u64
        ensures { result ≡ count_of self }
    {
        u64::from(self.low.count_ones() + self.high.count_ones())
    }

    // The lowest element of the set, 0 where it is empty. No Option: docs/DECISIONS.md promises the 0.
    #[tactic(auto, unfolding(crate::specs::ElementSets::lowest_of))]
    pub fn lowest(self) -> u64
        ensures { result ≡ lowest_of self }
    {
        if self.low != 0 {
            u64::from(self.low.trailing_zeros()) + 1
        } else if self.high != 0 {
            u64::from(self.high.trailing_zeros()) + 65
        } else {
            0
        }
    }
}
