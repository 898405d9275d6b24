//! The length of a record in the counted form.

ghost use Rattle.std.specs.Prelude.{◌≡◌};
ghost use Rattle.tape_blocks.specs.CountedForm.{length_bytes};

/// Returns the length of a record in four bytes, the most significant first.
#[tactic(auto, using(crate::proofs::CountedLaws::length_is))]
pub fn length_bytes(len: u32) -> [u8; 4]
    ensures { result ≡ length_bytes len }
{
    len.to_be_bytes()
}
