//! Short texts that lie in the value itself.
ghost use Rattle.std.specs.Prelude.{◌≡◌, ℕ, ◌-◌, ◌<◌, ◌≤◌, List, All, length, take, Some, nat_eq, refl};
ghost use Rattle.std.specs.{Ordering.nat_cmp, Cmp.partial_equiv_from_equiv, Cmp.Rules.hashing};
ghost use Rattle.std.specs.Cmp.Lexicographic.{pointwise, slice_cmp, nat_list_eq_equiv, nat_list_cmp_total, texts_po, texts_ties};
ghost use Rattle.std.specs.Hash as fed;
ghost use Rattle.std.proofs.Common.{rules};
ghost use Rattle.kcr_base.specs.Code.{filled};

use std::cmp::Ordering;
use std::hash::{Hash, Hasher};
use std::marker::Model;
use std::str;

/// ASCII text of at most `N` bytes, which lies in the value itself: it takes no memory, and it is `Copy`.
/// Clauses see its bytes. The cells behind them are zero, so that equal texts are equal values.
/// Codes are ordered by their bytes.
#[derive(Clone, Copy)]
pub struct Code<const N: usize> {
    cells: [u8; N],
    len: usize,
}

impl<const N: usize> Model for Code<N> {
    ghost use Rattle.std.specs.Prelude.{◌≡◌, ℕ, ◌-◌, ◌≤◌, List, length, take};
    ghost use Rattle.std.proofs.Common.{arith, sym, length-take-le};
    ghost use Rattle.kcr_base.specs.Code.{filled, IsFilled};

    ghost Value = { List ℕ };

    ghost view = { λ s. take s.len s.cells };

    ghost invariant = { λ s. IsFilled N s.len s.cells };

    ghost inverse = { λ bytes. record { cells = filled N bytes; len = length bytes } };

    ghost inverse_ok = { λ s h i. record {
      cells = sym h.filled_up i;
      len = length-take-le s.len s.cells (omega (arith, h.within, h.cell_count)) i;
    } };
}

impl<const N: usize> Code<N> {
    /// The code of these bytes, which are ASCII and at most `N`.
    pub fn new(bytes: &[u8]) -> Self
        requires fits { length bytes.now ≤ N }
        requires ascii { All (λ b. b < 128) bytes.now }
        ensures { result ≡ bytes.now }
    {
        let mut cells = [0; N];
        for (i, b) in bytes.iter().enumerate() {
            cells[i] = *b;
        }
        Code {
            cells,
            len: bytes.len(),
        }
    }

    /// The bytes of its text.
    pub fn as_bytes(&self) -> &[u8]
        ensures value { result.now ≡ self.now }
        ensures fits { length self.now ≤ N }
    {
        &self.cells[..self.len]
    }

    /// Its text.
    pub fn as_str(&self) -> &str
        ensures { result.now ≡ self.now }
    {
        match str::from_utf8(&self.cells[..self.len]) {
            Ok(text) => text,
            Err(_) => unreachable!(),
        }
    }
}

impl<const N: usize> PartialEq for Code<N> {
    ghost eq = { pointwise nat_eq };

    ghost laws = { partial_equiv_from_equiv nat_list_eq_equiv };

    // The cells behind the bytes are zero, so whole cells are compared, whose number is fixed.
    fn eq(&self, other: &Self) -> bool {
        self.len == other.len && self.cells == other.cells
    }
}

impl<const N: usize> Eq for Code<N> {
    ghost laws = { nat_list_eq_equiv };
}

impl<const N: usize> Hash for Code<N> {
    ghost hash_input = { fed.str };

    ghost respects_eq = { Prim.search (hashing, rules) };

    fn hash<H: Hasher>(&self, state: &mut H) {
        self.as_str().hash(state);
    }
}

impl<const N: usize> PartialOrd for Code<N> {
    ghost partial_cmp = { λ s t. Some (slice_cmp nat_cmp s t) };

    ghost laws = { texts_po };

    fn partial_cmp(&self, other: &Self) -> Option<Ordering> {
        Some(self.cmp(other))
    }
}

impl<const N: usize> Ord for Code<N> {
    ghost cmp = { slice_cmp nat_cmp };

    ghost total = { nat_list_cmp_total };

    ghost matches_partial_cmp = { λ s t. refl };

    ghost matches_eq = { texts_ties };

    fn cmp(&self, other: &Self) -> Ordering {
        self.as_bytes().cmp(other.as_bytes())
    }
}
