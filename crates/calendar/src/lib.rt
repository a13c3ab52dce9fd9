// Expiry dates: the day of a month on which the options on shares, and those on bonds, expire.
#![tactic(auto)]

mod business;
mod month;

ghost use Rattle.calendar.specs.Expiry.{BondDate, ShareDate, Tells};

use business::Days;
use measures::Refusal;

// The expiry date of options on shares: the third Friday of the month, or where that is a holiday the business day before it.
pub fn shares(year: u32, month: u32, holidays: &[u32]) -> Result<u32, Refusal>
    ensures { Tells year month holidays.now (ShareDate year month holidays.now) result }
{
    Days::read(year, month, holidays)?
        .share_date()
        .ok_or(Refusal::FigureOutOfRange)
}

// The expiry date of options on bonds: the third last business day of the month.
pub fn bonds(year: u32, month: u32, holidays: &[u32]) -> Result<u32, Refusal>
    ensures { Tells year month holidays.now (BondDate year month holidays.now) result }
{
    Days::read(year, month, holidays)?
        .bond_date()
        .ok_or(Refusal::FigureOutOfRange)
}

#[cfg(test)]
mod tests {
    use super::*;

    // The number of the refusal, if it is one.
    fn refused(answer: Result<u32, Refusal>) -> Option<u8> {
        answer.err().map(|why| why.number())
    }

    #[test]
    fn february_of_2017(rt: HostRuntime) {
        assert_eq!(rt; shares(2017, 2, &[]).ok(), Some(17));
        assert_eq!(rt; bonds(2017, 2, &[]).ok(), Some(24));
    }

    // The weekday is Sakamoto's, with Sunday as 0.
    #[test]
    fn every_third_friday(rt: HostRuntime) {
        let shifts: [u32; 12] = [0, 3, 2, 5, 0, 3, 5, 1, 4, 6, 2, 4];
        for year in 2000..2100 {
            for (month, shift) in (1..13).zip(shifts) {
                let day = shares(year, month, &[]).unwrap_or(0);
                assert!(rt; 15 <= day && day <= 21);
                let years = if month < 3 { year - 1 } else { year };
                assert_eq!(rt;
                    (years + years / 4 - years / 100 + years / 400 + shift + day) % 7,
                    5
                );
            }
        }
    }

    #[test]
    fn out_of_range(rt: HostRuntime) {
        for (year, month) in [(1999, 12), (2100, 1), (2017, 0), (2017, 13)] {
            assert_eq!(rt; refused(shares(year, month, &[])), Some(2));
            assert_eq!(rt; refused(bonds(year, month, &[])), Some(2));
        }
        assert_eq!(rt; refused(shares(2017, 2, &[0])), Some(2));
        assert_eq!(rt; refused(bonds(2017, 2, &[30])), Some(2));
        assert_eq!(rt; refused(bonds(2017, 2, &[1; 32])), Some(2));
        assert_eq!(rt; refused(bonds(2017, 2, &[1; 31])), None);
    }

    #[test]
    fn holidays(rt: HostRuntime) {
        assert_eq!(rt; shares(2017, 2, &[17]).ok(), Some(16));
        assert_eq!(rt; shares(2017, 2, &[17, 13, 14, 16, 15]).ok(), Some(10));
        assert_eq!(rt; bonds(2017, 2, &[28, 24]).ok(), Some(22));
        assert_eq!(rt; bonds(2016, 2, &[]).ok(), Some(25));
    }

    // Every day up to the last as a holiday, the last more than once.
    fn up_to(last: u32) -> [u32; 31] {
        std::array::from_fn(|place| last.min(place as u32 + 1))
    }

    #[test]
    fn no_day_left(rt: HostRuntime) {
        assert_eq!(rt; refused(shares(2017, 2, &up_to(28))), Some(2));
        assert_eq!(rt; refused(bonds(2017, 2, &up_to(28))), Some(2));
        assert_eq!(rt; refused(shares(2017, 2, &up_to(17))), Some(2));
        assert_eq!(rt; refused(bonds(2017, 2, &up_to(24))), Some(2));
        assert_eq!(rt; bonds(2017, 2, &up_to(23)).ok(), Some(24));
    }
}
