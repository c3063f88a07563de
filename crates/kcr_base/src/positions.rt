//! Positions of seats.
ghost use Rattle.std.specs.Prelude.{◌≡◌, ◌↔◌, IsTrue, ℕ, suc, ◌+◌, ◌<◌, List, All, length, map, take, Some, SomeIff};
ghost use Rattle.std.specs.List.Sorted.{IsStrictlyIncreasing};
ghost use Rattle.kcr_base.specs.Positions.{IsPositions};

use crate::code::Code;
use std::marker::Model;

/// Positions of a step's seats, counted from 1: at most sixteen rising numbers of 1 to 16.
#[derive(Clone, Copy, PartialEq, Eq)]
pub struct Positions {
    code: Code<16>,
}

impl Model for Positions {
    ghost use Rattle.std.specs.Prelude.{ℕ, List};
    ghost use Rattle.kcr_base.specs.Positions.{IsPositions};

    ghost Value = { List ℕ };

    ghost view = { λ s. s.code };

    ghost invariant = { λ s. IsPositions s.code };

    ghost inverse = { λ positions. record { code = positions } };
}

impl Positions {
    /// The positions, if they are rising numbers of 1 to 16, else None.
    pub fn new(positions: &[u8]) -> Option<Positions>
        ensures { SomeIff result (IsPositions positions.now) positions.now }
    {
        if positions.len() > 16 || !positions.iter().all(|p| *p >= 1 && *p <= 16) {
            return None;
        }
        if !is_rising(positions) {
            return None;
        }
        Some(Positions {
            code: Code::new(positions),
        })
    }

    /// The positions, counted from 1, of seats with these indices, counted from 0.
    #[tactic(auto, using(crate::proofs::PositionsLemmas::positions_of))]
    pub fn from_indices(indices: &[usize]) -> Positions
        requires rising { IsStrictlyIncreasing indices.now }
        requires below { All (λ i. i < 16) indices.now }
        ensures { result ≡ map suc indices.now }
    {
        let positions = counted_from_one(indices);
        Positions {
            code: Code::new(&positions[..indices.len()]),
        }
    }

    /// The positions in order, from 1.
    pub fn as_slice(&self) -> &[u8]
        ensures value { result.now ≡ self.now }
        ensures form { IsPositions self.now }
    {
        self.code.as_bytes()
    }
}

/// Whether each number is below the next.
fn is_rising(numbers: &[u8]) -> bool
    ensures { IsTrue result ↔ IsStrictlyIncreasing numbers.now }
{
    for i in 1..numbers.len() {
        if numbers[i - 1] >= numbers[i] {
            return false;
        }
    }
    true
}

/// Each index and one more, in the first cells.
#[tactic(auto, using(crate::proofs::PositionsLemmas::length_below, crate::proofs::PositionsLemmas::filled_more))]
fn counted_from_one(indices: &[usize]) -> [u8; 16]
    requires rising { IsStrictlyIncreasing indices.now }
    requires below { All (λ i. i < 16) indices.now }
    ensures { take (length indices.now) result ≡ map suc indices.now }
{
    let mut positions = [0; 16];
    for (place, index) in indices.iter().enumerate() {
        positions[place] = *index as u8 + 1;
    }
    positions
}
