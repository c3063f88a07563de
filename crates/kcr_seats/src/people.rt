//! Sets of people.
ghost use Rattle.std.specs.Prelude.{◌≡◌, ◌≢◌, ℕ, ◌<◌, true, false, IfNone, IfSome};
ghost use Rattle.kcr_seats.specs.declared.TheConstants.{MAX_PEOPLE};

/// A set of people with numbers below `MAX_PEOPLE`: a bit for each.
#[derive(Clone, Copy)]
pub(crate) struct People {
    mask: u128,
}

impl People {
    ghost use Rattle.kcr_seats.specs.People.{contains};

    /// Nobody.
    pub fn none() -> People
        ensures { (person : ℕ) → contains result person ≡ false }
    {
        People { mask: 0 }
    }

    /// The set with the person.
    pub fn with(self, person: usize) -> People
        requires { person < MAX_PEOPLE }
        ensures here { contains result person ≡ true }
        ensures others { (other : ℕ) → other ≢ person → contains result other ≡
            contains self other }
    {
        People {
            mask: self.mask | (1 << person),
        }
    }

    /// Whether the person is one of them.
    pub fn contains(self, person: usize) -> bool
        requires { person < MAX_PEOPLE }
        ensures { result ≡ contains self person }
    {
        self.mask & (1 << person) != 0
    }

    /// The first of them who is not one of the others.
    pub fn first_outside(self, others: People) -> Option<usize>
        ensures none { IfNone result ((person : ℕ) → contains self person ≡ true →
            contains others person ≡ true) }
        ensures inside { IfSome result (λ person. contains self person ≡ true) }
        ensures outside { IfSome result (λ person. contains others person ≡ false) }
    {
        let left = self.mask & !others.mask;
        if left == 0 {
            return None;
        }
        Some(left.trailing_zeros() as usize)
    }
}
