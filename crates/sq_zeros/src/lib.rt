//! Whether bytes are zeros, as behind the items of a page.
//!
//! The contract promises that each byte is looked at; lemmas say that such bytes are a list of zeros of that length. It stands on
//! std alone.
#![tactic(auto)]

ghost use Rattle.std.specs.Prelude.{◌≡◌};
ghost use Rattle.sq_zeros.specs.Zeros.{are_zeros};

/// Whether each byte is 0.
pub fn are_zeros(bytes: &[u8]) -> bool
    ensures { result ≡ are_zeros bytes.now }
{
    bytes.iter().all(|byte| *byte == 0)
}
