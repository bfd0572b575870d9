// When a header was written.

use adf_base::Stamp;

/// A date that compares: a later one is larger.
#[derive(Clone, Copy, Debug, PartialEq, Eq, PartialOrd, Ord)]
pub struct Moment {
    pub days: u32,
    pub minutes: u32,
    pub ticks: u32,
}

impl Moment {
    /// The earliest moment, which also stands for none.
    pub const NONE: Moment = Moment {
        days: 0,
        minutes: 0,
        ticks: 0,
    };

    /// The moment of a date, whatever its numbers are.
    pub fn of(date: Stamp) -> Moment {
        Moment {
            days: date.days,
            minutes: date.mins,
            ticks: date.ticks,
        }
    }

    /// The moment of a civil date up to the year 2157; `NONE` if the numbers are not those of one.
    pub fn of_civil(date: Stamp) -> Moment {
        if date.days < 65536 && date.mins < 1440 && date.ticks < 3000 {
            Moment::of(date)
        } else {
            Moment::NONE
        }
    }

    /// The later one of two moments.
    pub fn latest(self, other: Moment) -> Moment {
        if other > self { other } else { self }
    }
}
