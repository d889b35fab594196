// What is done with a run of bytes whatever they stand for: copied to the front of a buffer, and searched.
//
// `index_of` of specs/Octets.antt says where a byte stands.
#![tactic(auto)]

ghost use Rattle.octets.specs.Octets.{index_of};
ghost use Rattle.std.specs.Prelude.{◌≡◌, ◌+◌, ◌++◌, ◌≤◌, length, drop};

// Copies the bytes to the front of the buffer, and leaves the rest of it.
pub fn copy(from: &[u8], to: &mut [u8])
    requires { length from.now ≤ length to.old }
    ensures { to.new ≡ from.now ++ drop (length from.now) to.old }
{
    to[..from.len()].copy_from_slice(from);
}

// Where the byte first stands from `at` on, or the end where it does not.
pub fn find(bytes: &[u8], at: usize, byte: u8) -> usize
    requires { at ≤ length bytes.now }
    ensures first { result ≡ at + index_of byte (drop at bytes.now) }
    ensures within { result ≤ length bytes.now }
{
    let rest = &bytes[at..];
    match rest.iter().position(|b| *b == byte) {
        Some(n) => at + n,
        None => bytes.len(),
    }
}
