//! Texts that are cut at a byte.
ghost use Rattle.std.specs.Prelude.{◌≡◌, ◌==◌, Some, None, MatchOption};
ghost use Rattle.std.specs.List.{position};
ghost use Rattle.kcr_forms.specs.Split;

/// The index of the first such byte.
fn first_at(byte: u8, text: &[u8]) -> Option<usize>
    ensures { result ≡ position (λ b. b == byte) text.now }
{
    text.iter().position(|b| *b == byte)
}

/// What stands before the first such byte, and what after it.
#[tactic(auto, unfolding(crate::specs::Split::split_at_byte))]
pub fn split_at_byte(byte: u8, text: &[u8]) -> Option<(&[u8], &[u8])>
    ensures { MatchOption result (Split.split_at_byte byte text.now ≡ None)
        (λ p. Split.split_at_byte byte text.now ≡ Some (p.0.now, p.1.now)) }
{
    let at = first_at(byte, text)?;
    Some((&text[..at], &text[at + 1..]))
}
