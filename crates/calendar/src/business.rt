// The business days of a month.
ghost use Rattle.std.specs.Prelude.{◌≡◌, ◌+◌, ◌-◌, ◌%◌, ◌<◌, ◌≤◌, false, MatchResult};
ghost use Rattle.std.specs.Iterator.Adapters.{rev_source};
ghost use Rattle.measures.specs.declared.refusal.Refusal.TheVariants.{FigureOutOfRange};
ghost use Rattle.calendar.specs.Days.{InMonth, month_length, weekday};
ghost use Rattle.calendar.specs.Expiry.{business, BondDate, Finds, InRange, LatestBusiness, ShareDate, The, ThirdFriday};

use crate::month::{FRIDAY, Month, SATURDAY};
use measures::Refusal;
use std::iter::Rev;
use std::ops::RangeInclusive;

const MOST_HOLIDAYS: usize = 31;

// The days of a month, with its holidays.
#[derive(Clone, Copy, Debug, PartialEq, Eq)]
pub struct Days<'a> {
    month: Month,
    // the weekday of the first day
    first: u32,
    holidays: &'a [u32],
    ghost begins: { first ≡ weekday month.year month.number 1 },
    ghost in_range: { InRange month.year month.number holidays.now },
}

impl<'a> Days<'a> {
    // The days of the month, where it and its holidays are in range.
    pub fn read(year: u32, number: u32, holidays: &'a [u32]) -> Result<Days<'a>, Refusal>
        ensures { MatchResult result
            (λ days. (days.month.year ≡ year) × (days.month.number ≡ number) × (days.holidays.now ≡ holidays.now))
            (λ why. (why ≡ FigureOutOfRange) × (InRange year number holidays.now → ⊥)) }
    {
        match Month::new(year, number) {
            Some(month) if holidays.len() <= MOST_HOLIDAYS && month.holds_all(holidays) => {
                let first = month.first_weekday();
                Ok(Days {
                    month,
                    first,
                    holidays,
                })
            }
            _ => Err(Refusal::FigureOutOfRange),
        }
    }

    fn weekday(&self, day: u32) -> u32
        requires { InMonth self.now.month.year self.now.month.number day }
        ensures { result ≡ weekday self.now.month.year self.now.month.number day }
    {
        (self.first + day - 1) % 7
    }

    fn third_friday(&self) -> u32
        ensures { The (ThirdFriday self.now.month.year self.now.month.number) result }
    {
        friday_of_third_week(self.first)
    }

    // Whether the day is one of Monday to Friday, and no holiday.
    fn is_business(&self, day: u32) -> bool
        requires { InMonth self.now.month.year self.now.month.number day }
        ensures { result ≡ business self.now.month.year self.now.month.number self.now.holidays.now day }
    {
        self.weekday(day) < SATURDAY && !self.holidays.contains(&day)
    }

    // The latest business day up to the third Friday.
    pub fn share_date(&self) -> Option<u32>
        ensures { Finds (ShareDate self.now.month.year self.now.month.number self.now.holidays.now) result }
    {
        self.latest_business_day(self.third_friday())
    }

    // The third last business day.
    pub fn bond_date(&self) -> Option<u32>
        ensures { Finds (BondDate self.now.month.year self.now.month.number self.now.holidays.now) result }
    {
        down_from(self.month.days())
            .filter(|day| self.is_business(*day))
            .nth(2)
    }

    // The latest business day that is not after the limit.
    fn latest_business_day(&self, limit: u32) -> Option<u32>
        requires { limit ≤ month_length self.now.month.year self.now.month.number }
        ensures { Finds (LatestBusiness self.now.month.year self.now.month.number self.now.holidays.now limit) result }
    {
        down_from(limit).find(|day| self.is_business(*day))
    }
}

// The days up to a last one, from that down to the first.
fn down_from(last: u32) -> Rev<RangeInclusive<u32>>
    ensures begins { (rev_source result).end ≡ last }
    ensures ends { (rev_source result).start ≡ 1 }
    ensures fresh { (rev_source result).exhausted ≡ false }
{
    (1..=last).rev()
}

// The Friday of the days 15 to 21, by the weekday of the first.
fn friday_of_third_week(first: u32) -> u32
    requires { first < 7 }
    ensures { (15 ≤ result) × (result ≤ 21) × ((first + (result - 1)) % 7 ≡ 4) }
{
    15 + (FRIDAY + 7 - first) % 7
}
