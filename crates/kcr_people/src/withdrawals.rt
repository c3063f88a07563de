//! Rows of withdrawals as one value.
ghost use Rattle.std.specs.Prelude.{◌≡◌};

use crate::Withdrawal;
use std::marker::Model;

/// Rows of withdrawals, seen as their list.
#[derive(Drop)]
pub struct WithdrawalRows {
    rows: Vec<Withdrawal>,
}

impl Model for WithdrawalRows {
    ghost use Rattle.std.specs.Prelude.{List};
    ghost use Rattle.kcr_people.specs.declared.Withdrawal.{Withdrawal};

    ghost Value = { List Withdrawal };

    ghost view = { λ s. s.rows.items };
}

impl WithdrawalRows {
    /// The rows, in their order.
    pub fn new(rows: Vec<Withdrawal>) -> WithdrawalRows
        ensures { result ≡ rows.items }
    {
        WithdrawalRows { rows }
    }

    /// The rows, in their order.
    pub fn as_slice(&self) -> &[Withdrawal]
        ensures { result.now ≡ self.now }
    {
        &self.rows
    }

    /// The rows, in their order, without taking memory.
    pub fn into_vec(self) -> Vec<Withdrawal>
        ensures { result.items ≡ self }
    {
        self.rows
    }
}
