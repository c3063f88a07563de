//! How many accepted commands a client has.
ghost use Rattle.std.specs.Prelude.{◌≡◌, ◌≤◌, SomeIff};
ghost use Rattle.kcr_base.specs.declared.limits.TheConstants.{MAX_COMMANDS};
ghost use Rattle.kcr_wire.specs.Endpoints.{after_of};

use kcr_base::MAX_COMMANDS;
use kcr_base::number::read_number;
use std::marker::Model;

/// How many of the accepted commands a client has, the first ones: from 0 to `MAX_COMMANDS`.
#[derive(Clone, Copy)]
pub struct After {
    number: u32,
}

impl Model for After {
    ghost use Rattle.std.specs.Prelude.{ℕ, ◌≤◌};
    ghost use Rattle.kcr_base.specs.declared.limits.TheConstants.{MAX_COMMANDS};

    ghost Value = { ℕ };

    ghost view = { λ s. s.number };

    ghost invariant = { λ s. s.number ≤ MAX_COMMANDS };

    ghost inverse = { λ n. record { number = n } };
}

impl After {
    // The number, or None if it is greater than the greatest.
    fn new(number: u32) -> Option<After>
        ensures { SomeIff result (number ≤ MAX_COMMANDS) number }
    {
        if number <= MAX_COMMANDS {
            Some(After { number })
        } else {
            None
        }
    }

    /// The number that these bytes are in decimal, without sign or leading zeros, or None if they are none from 0 to
    /// `MAX_COMMANDS`.
    pub fn read(bytes: &[u8]) -> Option<After>
        ensures { result ≡ after_of bytes.now }
    {
        let Some(number) = read_number(bytes) else {
            return None;
        };
        After::new(number)
    }

    /// As a number.
    pub fn get(self) -> u32
        ensures value { result ≡ self }
        ensures range { self ≤ MAX_COMMANDS }
    {
        self.number
    }
}
