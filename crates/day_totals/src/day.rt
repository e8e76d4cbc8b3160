//! The days on which a merchant's business is counted.

ghost use Rattle.std.specs.Hash as fed;
ghost use Rattle.std.proofs.Common.{rules};
ghost use Rattle.std.specs.Cmp.Rules.{hashing};
ghost use Rattle.std.specs.Prelude.{◌≡◌, ◌+◌, ◌<◌, ◌≤◌, true, pos, SomeIff, IfSome, IfNone};
ghost use Rattle.std.specs.List.{list_all};
ghost use Rattle.std.specs.Char.{is_ascii_digit};
ghost use Rattle.jiff.specs.Words.{IsYmd};
ghost use Rattle.day_totals.specs.Day.{last_day, IsDayNumber, IsDateOf, IsOnNoDay};
ghost use Rattle.day_totals.specs.Day.{IsDaysAfterFirst, IsNoDateText, date_of, two_digits};
ghost use Rattle.day_totals.specs.Day.{mmdd_of, date_text_of, resolved};

use jiff::ToSpan;
use jiff::civil::{Date, date};
use std::hash::{Hash, Hasher};
use std::marker::Model;

/// A business day, from 2000-01-01 to 2099-12-31 (own profile). Contracts see its number.
#[derive(Clone, Copy, Debug, PartialEq, Eq, PartialOrd, Ord)]
pub struct Day {
    number: u32,
}

impl Model for Day {
    ghost use Rattle.std.specs.Prelude.{ℕ};
    ghost use Rattle.day_totals.specs.Day.{IsDayNumber};

    ghost Value = { ℕ };

    ghost view = { λ day. day.number };

    ghost invariant = { λ day. IsDayNumber day.number };

    ghost inverse = { λ number. record { number = number } };
}

impl Hash for Day {
    // A whole word, which a hasher takes fastest.
    ghost hash_input = { fed.u64 };

    ghost respects_eq = { Prim.search (hashing, rules) };

    fn hash<H: Hasher>(&self, state: &mut H) {
        state.write_u64(self.number as u64);
    }
}

impl Day {
    /// The number of the last day, 2099-12-31.
    pub const LAST_NUMBER: u32 = 36_524;

    /// How many days before today a month and a day may mean (own profile).
    pub const DAYS_BACK: u32 = 30;

    /// The day with that number, where 2000-01-01 is 0.
    pub fn from_number(number: u32) -> Option<Day>
        ensures { SomeIff result (IsDayNumber number) number }
    {
        if number > Day::LAST_NUMBER {
            return None;
        }
        Some(Day { number })
    }

    /// The number, where 2000-01-01 is 0.
    pub fn number(self) -> u32
        ensures value { result ≡ self }
        ensures range { IsDayNumber self }
    {
        let Day { number } = self;
        number
    }

    /// The next day, which 2099-12-31 doesn't have.
    pub fn next(self) -> Option<Day>
        ensures { SomeIff result (self < last_day) (self + 1) }
    {
        Day::from_number(self.number + 1)
    }

    /// Its date in the calendar.
    fn date(self) -> Date
        ensures { IsDateOf (date_of self) result }
    {
        first_date() + i64::from(self.number).days()
    }

    /// The year of its date.
    pub fn year(self) -> u16
        ensures { result ≡ (date_of self).year }
    {
        self.date().year() as u16
    }

    /// The month of its date, from 1 to 12.
    pub fn month(self) -> u8
        ensures { result ≡ (date_of self).month }
    {
        self.date().month() as u8
    }

    /// The day with this date.
    fn of_date(date: Date) -> Option<Day>
        ensures found { IfSome result (λ day. IsDateOf (date_of day) date) }
        ensures none { IfNone result (IsOnNoDay date) }
    {
        match u32::try_from(days_after_first(date)) {
            Ok(number) => Day::from_number(number),
            Err(_) => None,
        }
    }

    /// The day whose date this is, written YYYY-MM-DD.
    pub fn read(text: &str) -> Option<Day>
        ensures found { IfSome result (λ day. text.now ≡ date_text_of day) }
        ensures none { IfNone result (IsNoDateText text.now) }
    {
        let Ok(date) = text.parse::<Date>() else {
            return None;
        };
        let day = Day::of_date(date)?;
        // `jiff` reads other forms too, as a week date or a date with a time.
        if day.date_text().as_slice() == text.as_bytes() {
            Some(day)
        } else {
            None
        }
    }

    /// The date, written YYYY-MM-DD.
    pub fn date_text(self) -> [u8; 10]
        ensures { result ≡ date_text_of self }
    {
        let date = self.date();
        let century = two_digits((date.year() / 100) as u8);
        let year = two_digits((date.year() % 100) as u8);
        let month = two_digits(date.month() as u8);
        let day = two_digits(date.day() as u8);
        [
            century[0], century[1], year[0], year[1], b'-', month[0], month[1], b'-', day[0],
            day[1],
        ]
    }

    /// Month and day, MMDD, as element 15 has them (ISO 8583:1987).
    pub fn mmdd(self) -> [u8; 4]
        ensures text { result ≡ mmdd_of self }
        ensures digits { list_all is_ascii_digit result ≡ true }
    {
        let date = self.date();
        let month = two_digits(date.month() as u8);
        let day = two_digits(date.day() as u8);
        [month[0], month[1], day[0], day[1]]
    }

    /// The latest day with that month and day, MMDD, among today and the [`Day::DAYS_BACK`] days
    /// before it. None has them where they are no month and day, or too long ago, or still to come
    /// (own profile).
    pub fn resolve(mmdd: [u8; 4], today: Day) -> Option<Day>
        ensures { result ≡ resolved mmdd today }
    {
        let number = today.number();
        for back in 0..number.min(Day::DAYS_BACK) + 1 {
            let day = Day {
                number: number - back,
            };
            if day.mmdd() == mmdd {
                return Some(day);
            }
        }
        None
    }
}

fn first_date() -> Date
    ensures { IsYmd (pos 2000) (pos 1) (pos 1) result }
{
    date(2000, 1, 1)
}

fn days_after_first(date: Date) -> i32
    ensures { IsDaysAfterFirst result date }
{
    first_date().until(date).unwrap().get_days()
}

fn two_digits(number: u8) -> [u8; 2]
    requires { number < 100 }
    ensures { result ≡ two_digits number }
{
    [b'0' + number / 10, b'0' + number % 10]
}
