//! Moments, to the second.
ghost use Rattle.std.specs.Prelude.{◌≡◌, All, ℕ, ◌+◌, ◌*◌, ◌/◌, ◌%◌, ◌<◌, Some, SomeIff};
ghost use Rattle.kcr_base.specs.{Reads.HasText, Reads.ReadsText, Days.day_of, Moment.IsMoment, Moment.moment_text};

use crate::code::Code;
use crate::day::Day;
use crate::digits::{read_clock, write_two};
use std::marker::Model;

/// A second of the years 2000 to 2099, in UTC, without leap seconds. Clauses see its number, in seconds from
/// 1970-01-01T00:00:00Z: its day's number times 86,400, plus the second of the day. Moments are ordered by it.
#[derive(Clone, Copy, PartialEq, Eq, PartialOrd, Ord)]
pub struct Moment {
    second: u64,
}

impl Model for Moment {
    ghost use Rattle.std.specs.Prelude.{ℕ};
    ghost use Rattle.kcr_base.specs.Moment.{IsMoment};

    ghost Value = { ℕ };

    ghost view = { λ s. s.second };

    ghost invariant = { λ s. IsMoment s.second };

    ghost inverse = { λ n. record { second = n } };
}

impl Moment {
    /// The moment with this number, in seconds from 1970-01-01T00:00:00Z, or `None` if that is not of the years
    /// 2000 to 2099.
    pub fn from_number(number: u64) -> Option<Moment>
        ensures { SomeIff result (IsMoment number) number }
    {
        if (10957 * 86400..47482 * 86400).contains(&number) {
            Some(Moment { second: number })
        } else {
            None
        }
    }

    /// Its number, in seconds from 1970-01-01T00:00:00Z.
    pub fn number(self) -> u64
        ensures value { result ≡ self }
        ensures range { IsMoment self }
    {
        self.second
    }

    /// The moment at this second of a day, from 0.
    pub fn at(day: Day, second: u32) -> Moment
        requires { second < 86400 }
        ensures { result ≡ day * 86400 + second }
    {
        Moment {
            second: day.number() as u64 * 86400 + second as u64,
        }
    }

    /// Its day.
    pub fn day(self) -> Day
        ensures { result ≡ day_of self }
    {
        match Day::from_number((self.number() / 86400) as u16) {
            Some(day) => day,
            None => unreachable!(),
        }
    }

    /// The moment with this text, `YYYY-MM-DDTHH:MM:SSZ` (RFC 3339), or `None` if there is none.
    pub fn read(bytes: &[u8]) -> Option<Moment>
        ensures found { HasText IsMoment moment_text bytes.now result }
        ensures only { ReadsText IsMoment moment_text bytes.now result }
    {
        if bytes.len() != 20 {
            return None;
        }
        let (date, clock) = bytes.split_at(10);
        let day = Day::read(date)?;
        let second = read_clock(clock)?;
        Some(Moment::at(day, second))
    }

    /// Its text, `YYYY-MM-DDTHH:MM:SSZ`.
    pub fn text(self) -> [u8; 20]
        ensures bytes { result ≡ moment_text self }
        ensures ascii { All (λ b. b < 128) result }
    {
        let [a, b, c, d, e, f, g, h, i, j] = self.day().text();
        let second = self.number() % 86400;
        let [k, l] = write_two((second / 3600) as u8);
        let [m, n] = write_two((second / 60 % 60) as u8);
        let [o, p] = write_two((second % 60) as u8);
        [
            a, b, c, d, e, f, g, h, i, j, b'T', k, l, b':', m, n, b':', o, p, b'Z',
        ]
    }

    /// Its text as a code, which takes no memory.
    pub fn code(self) -> Code<20>
        ensures { result ≡ moment_text self }
    {
        Code::new(&self.text())
    }
}
