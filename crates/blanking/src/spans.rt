// Bytes that follow one another.
use std::marker::Model;

// From the lowest of them to the highest. No range of std: its test asks twice, and where a recast names what
// it loses that was slower, 155 ns against 135.
#[derive(Clone, Copy)]
pub struct Span(pub u8, pub u8);

impl Model for Span {
    ghost use Rattle.std.specs.Prelude.{ℕ, ◌≤◌};

    ghost Value = { ℕ × ℕ };

    ghost view = { λ s. (s.0, s.1) };

    ghost invariant = { λ s. s.0 ≤ s.1 };

    ghost inverse = { λ v. record { 0 = v.0; 1 = v.1 } };
}

impl Span {
    ghost use Rattle.std.specs.Prelude.{◌≡◌};
    ghost use Rattle.text.specs.Bytes.{between};

    // Is the byte one of them?
    pub fn holds(self, b: u8) -> bool
        ensures { result ≡ between self.0 self.1 b }
    {
        !faults::strays(b, self.0, self.1)
    }
}
