//! Lines and words, cut at a byte.

ghost use Rattle.std.specs.Prelude.{◌≡◌, ◌==◌, ◌+◌, ◌∷◌, [], None, IfSome, length, position};
ghost use Rattle.std.specs.List.{slice_split};

/// The place of the first such byte.
fn place_of(bytes: &[u8], at: u8) -> Option<usize>
    ensures { result ≡ position (λ b. b == at) bytes.now }
{
    bytes.iter().position(|b| *b == at)
}

/// What is in front of the first such byte, and after it.
#[tactic(auto, using(crate::proofs::SplitLemmas::split_none, crate::proofs::SplitLemmas::position_some))]
pub fn split_once(bytes: &[u8], at: u8) -> Option<(&[u8], &[u8])>
    ensures some { IfSome result
        (λ r. slice_split (λ b. b == at) bytes.now ≡ r.0.now ∷ slice_split (λ b. b == at) r.1.now) }
    ensures len { IfSome result (λ r. length r.0.now + length r.1.now + 1 ≡ length bytes.now) }
    ensures none { result ≡ None → slice_split (λ b. b == at) bytes.now ≡ bytes.now ∷ [] }
{
    let place = place_of(bytes, at)?;
    Some((&bytes[..place], &bytes[place + 1..]))
}
