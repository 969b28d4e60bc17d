//! A time as a date.

/// A day and a time of it, in Coordinated Universal Time.
#[derive(Debug, Clone, Copy, PartialEq, Eq)]
pub struct Moment {
    /// The year, from 1970 on.
    pub year: u128,
    /// 1 to 12.
    pub month: u128,
    /// 1 to 31.
    pub day: u128,
    /// 0 to 23.
    pub hour: u128,
    /// 0 to 59.
    pub minute: u128,
    /// 0 to 59.
    pub second: u128,
    /// 0 to 999,999,999.
    pub nanosecond: u128,
}

impl Moment {
    /// So many nanoseconds after the beginning of 1970. Each day has 86,400 seconds.
    pub fn of(nanoseconds: u128) -> Moment {
        let seconds = nanoseconds / 1_000_000_000;
        let of_day = seconds % 86_400;
        let (year, month, day) = date(seconds / 86_400);
        Moment {
            year,
            month,
            day,
            hour: of_day / 3600,
            minute: of_day / 60 % 60,
            second: of_day % 60,
            nanosecond: nanoseconds % 1_000_000_000,
        }
    }
}

/// The date so many days after the first of January 1970. Years are counted from the first of March 0 on here, so that a leap day is a
/// year's last.
fn date(days: u128) -> (u128, u128, u128) {
    let days = days.saturating_add(719_468);
    let of_era = days % 146_097;
    let leaps = (of_era / 1460 + of_era / 146_096).saturating_sub(of_era / 36_524);
    let year = of_era.saturating_sub(leaps) / 365;
    let of_year = (of_era + year / 100).saturating_sub(365 * year + year / 4);
    let from_march = (5 * of_year + 2) / 153;
    let day = of_year.saturating_sub((153 * from_march + 2) / 5) + 1;
    let year = (days / 146_097).saturating_mul(400).saturating_add(year);
    if from_march < 10 {
        return (year, from_march + 3, day);
    }
    (year.saturating_add(1), from_march.saturating_sub(9), day)
}
