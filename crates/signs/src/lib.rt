// Numbers with a sign, made of a sign and a plain number.
//
// All arithmetic is on plain numbers; signed ones are made here and nowhere else.
#![tactic(auto)]

ghost use Rattle.std.specs.Prelude.{◌≡◌, ◌^◌, ◌<◌};
ghost use Rattle.signs.specs.Signed.{signed};

// A number with its sign. No From makes it of a plain number, which may be too great; here it is not.
pub fn signed_of(is_below: bool, n: u64) -> i64
    requires { n < 2 ^ 63 }
    ensures { result ≡ signed is_below n }
{
    if is_below { -(n as i64) } else { n as i64 }
}
