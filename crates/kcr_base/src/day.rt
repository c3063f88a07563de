//! Days of the calendar.
ghost use Rattle.std.specs.Prelude.{◌≡◌, All, ℕ, ◌<◌, Some, IfSome, SomeIff};
ghost use Rattle.kcr_base.specs.Reads.{HasText, ReadsText};
ghost use Rattle.kcr_base.specs.Day.{IsDayOf, IsDay, day_text, year_of, month_of, day_of_month};

use crate::code::Code;
use crate::digits::{read_date, write_two};
use jiff_core::civil::Date;
use std::marker::Model;

/// A day of the years 2000 to 2099 of the Gregorian calendar. Clauses see its number, in days from 1970-01-01.
/// Days are ordered by their numbers.
#[derive(Clone, Copy, PartialEq, Eq, PartialOrd, Ord)]
pub struct Day {
    number: u16,
}

impl Model for Day {
    ghost use Rattle.std.specs.Prelude.{ℕ};
    ghost use Rattle.kcr_base.specs.{Reads.HasText, Reads.ReadsText, Day.IsDay};

    ghost Value = { ℕ };

    ghost view = { λ s. s.number };

    ghost invariant = { λ s. IsDay s.number };

    ghost inverse = { λ n. record { number = n } };
}

impl Day {
    /// The day with this number, counted from 1970-01-01, or `None` if that is not of the years 2000 to 2099.
    pub fn from_number(number: u16) -> Option<Day>
        ensures { SomeIff result (IsDay number) number }
    {
        if (10957..47482).contains(&number) {
            Some(Day { number })
        } else {
            None
        }
    }

    /// Its number, counted from 1970-01-01.
    pub fn number(self) -> u16
        ensures value { result ≡ self }
        ensures range { IsDay self }
    {
        self.number
    }

    /// The day of this date, or `None` if there is no such date or its year is not 2000 to 2099.
    pub fn from_date(year: u16, month: u8, day: u8) -> Option<Day>
        requires month { month < 100 }
        requires day { day < 100 }
        ensures found { IfSome result (IsDayOf year month day) }
        ensures only { (n : ℕ) → IsDayOf year month day n → result ≡ Some n }
    {
        if year < 2000 || year > 2099 {
            return None;
        }
        match Date::new(year as i16, month as i8, day as i8) {
            Ok(date) => Some(Day {
                number: date.to_unix_epoch_day() as u16,
            }),
            Err(_) => None,
        }
    }

    /// The day with this text, `YYYY-MM-DD` (ISO 8601), or `None` if there is none.
    pub fn read(bytes: &[u8]) -> Option<Day>
        ensures found { HasText IsDay day_text bytes.now result }
        ensures only { ReadsText IsDay day_text bytes.now result }
    {
        let (year, month, day) = read_date(bytes)?;
        Day::from_date(year, month, day)
    }

    /// Its year, month and day of the month.
    pub fn date(self) -> (u16, u8, u8)
        ensures date { IsDayOf result.0 result.1 result.2 self }
        ensures parts { (result.0 ≡ year_of self) × (result.1 ≡ month_of self) × (result.2 ≡ day_of_month self) }
    {
        let number = self.number();
        let date = Date::from_days_since_min(number as u32 + 4_371_587);
        (date.year as u16, date.month, date.day)
    }

    /// Its text, `YYYY-MM-DD`.
    pub fn text(self) -> [u8; 10]
        ensures bytes { result ≡ day_text self }
        ensures ascii { All (λ b. b < 128) result }
    {
        let (year, month, day) = self.date();
        let [a, b] = write_two((year / 100) as u8);
        let [c, d] = write_two((year % 100) as u8);
        let [e, f] = write_two(month);
        let [g, h] = write_two(day);
        [a, b, c, d, b'-', e, f, b'-', g, h]
    }

    /// Its text as a code, which takes no memory.
    pub fn code(self) -> Code<10>
        ensures { result ≡ day_text self }
    {
        Code::new(&self.text())
    }
}
