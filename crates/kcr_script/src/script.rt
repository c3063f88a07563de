//! Scripts, and the fields of their rows.
ghost use Rattle.std.specs.Prelude.{◌≡◌, ◌≢◌, ◌↔◌, ℕ, ◌<◌, List, [], ◌∷◌, IsTrue, MatchOption, Some};
ghost use Rattle.std.specs.Fmt.{decimal};
ghost use Rattle.csv.specs.Records.{fields_of};
ghost use Rattle.kcr_script.specs.Script.{header};

use crate::seats::Seats;
use csv::ByteRecord;
use kcr_base::Activity;
use std::marker::Model;

/// A step of a script.
#[derive(Drop)]
pub struct Step {
    /// What is done, 1 to 500 bytes.
    pub activity: Activity,
    /// Who has to be there, 1 to 16 seats.
    pub seats: Seats,
}

/// The steps of a ceremony in order, 1 to `MAX_STEPS`: step k stands at position k - 1.
#[derive(Drop)]
pub struct Script {
    steps: Vec<Step>,
}

impl Model for Script {
    ghost use Rattle.std.specs.Prelude.{List};
    ghost use Rattle.kcr_script.specs.{declared.script.Step.Step, Steps.HasSteps};

    ghost Value = { List Step };

    ghost view = { λ s. s.steps.items };

    ghost invariant = { λ s. HasSteps s.steps.items };
}

impl Script {
    ghost use Rattle.kcr_script.specs.Steps.{HasSteps};

    /// The script of these steps.
    pub(crate) fn of(steps: Vec<Step>) -> Script
        requires { HasSteps steps.items }
        ensures { result ≡ steps.items }
    {
        Script { steps }
    }

    /// The steps in order.
    pub fn as_slice(&self) -> &[Step]
        ensures value { result.now ≡ self.now }
        ensures form { HasSteps self.now }
    {
        self.steps.as_slice()
    }
}

/// Whether the bytes are the text.
fn is_text(bytes: &[u8], text: &[u8]) -> bool
    ensures { IsTrue result ↔ (bytes.now ≡ text.now) }
{
    bytes == text
}

/// Whether the bytes are the number in decimal.
pub(crate) fn is_number(bytes: &[u8], number: u32) -> bool
    ensures { IsTrue result ↔ (bytes.now ≡ decimal number) }
{
    let mut buffer = itoa::Buffer::new();
    let text = buffer.format(number);
    bytes == text.as_bytes()
}

/// The three fields of a row that has three.
pub(crate) fn three_fields(row: &ByteRecord) -> Option<(&[u8], &[u8], &[u8])>
    ensures { MatchOption result
        ((a b c : List ℕ) → fields_of row.now ≢ a ∷ b ∷ c ∷ []) (λ p. fields_of row.now ≡ p.0.now ∷ p.1.now ∷ p.2.now
        ∷ []) }
{
    if row.len() != 3 {
        return None;
    }
    Some((row.get(0)?, row.get(1)?, row.get(2)?))
}

/// Whether it is row 1 of a script.
pub(crate) fn is_header(row: &ByteRecord) -> bool
    ensures { IsTrue result ↔ (fields_of row.now ≡ header) }
{
    match three_fields(row) {
        Some((a, b, c)) => is_text(a, b"step") && is_text(b, b"activity") && is_text(c, b"seats"),
        None => false,
    }
}
