// A month of the calendar: how long it is, and on which weekday it begins.
ghost use Rattle.std.specs.Prelude.{◌≡◌, ◌-◌, ◌≤◌, ◌↔◌, All, IsTrue, MatchOption};
ghost use Rattle.calendar.specs.Days.{days_of_months, days_of_years, InCalendar, InMonth, leap, month_length, month_lengths, weekday};

const FIRST_YEAR: u32 = 2000;

const LAST_YEAR: u32 = 2099;

// Monday is 0, and so on to Sunday, 6.
pub const FRIDAY: u32 = 4;

pub const SATURDAY: u32 = 5;

#[derive(Clone, Copy, Debug, PartialEq, Eq)]
pub struct Month {
    year: u32,
    number: u32,
    ghost known: { InCalendar year number },
}

impl Month {
    // The month, where the calendar has it.
    pub fn new(year: u32, number: u32) -> Option<Month>
        ensures { MatchOption result (InCalendar year number → ⊥) (λ m. (m.year ≡ year) × (m.number ≡ number)) }
    {
        if (FIRST_YEAR..=LAST_YEAR).contains(&year) && (1..=12).contains(&number) {
            Some(Month { year, number })
        } else {
            None
        }
    }

    fn is_leap(self) -> bool
        ensures { result ≡ leap self.year }
    {
        self.year % 4 == 0 && (self.year % 100 != 0 || self.year % 400 == 0)
    }

    // The lengths of the months of its year, January first.
    fn lengths(self) -> [u32; 12]
        ensures { result ≡ month_lengths self.year }
    {
        let february = if self.is_leap() { 29 } else { 28 };
        [31, february, 31, 30, 31, 30, 31, 31, 30, 31, 30, 31]
    }

    // How many days it has.
    pub fn days(self) -> u32
        ensures { result ≡ month_length self.year self.number }
    {
        self.lengths()[self.number as usize - 1]
    }

    // Whether each of the holidays is a day of the month.
    pub fn holds_all(self, holidays: &[u32]) -> bool
        ensures { IsTrue result ↔ All (InMonth self.year self.number) holidays.now }
    {
        let days = 1..=self.days();
        holidays.iter().all(|day| days.contains(day))
    }

    // The weekday of its first day; 1 January 2000 was a Saturday.
    #[tactic(auto, using(crate::proofs::Lengths::days_of_years_is, crate::proofs::Lengths::days_of_months_most))]
    pub fn first_weekday(self) -> u32
        ensures { result ≡ weekday self.year self.number 1 }
    {
        (SATURDAY + self.days_before_year() + self.days_before()) % 7
    }

    // The days from 1 January to its first.
    #[tactic(auto, using(crate::proofs::Lengths::days_of_months_most))]
    fn days_before(self) -> u32
        ensures { result ≡ days_of_months self.year self.number }
    {
        self.lengths()[..self.number as usize - 1].iter().sum()
    }

    // The days from 1 January 2000 to 1 January of its year: each fourth year from 2000 on has one day more.
    #[tactic(auto, using(crate::proofs::Lengths::days_of_years_is))]
    fn days_before_year(self) -> u32
        ensures { result ≡ days_of_years (self.year - 2000) }
    {
        let years = self.year - FIRST_YEAR;
        365 * years + (years + 3) / 4
    }
}
