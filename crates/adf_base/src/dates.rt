// Dates: days since 1978-01-01, minutes of the day, ticks of the minute.

/// A date of the file system.
#[derive(Clone, Copy, Debug, PartialEq, Eq)]
pub struct Stamp {
    /// Days since 1978-01-01.
    pub days: u32,
    /// Minutes of the day: 0 to 1439 in a civil date.
    pub mins: u32,
    /// Ticks of the minute, fiftieths of a second: 0 to 2999 in a civil date.
    pub ticks: u32,
}

/// The date that stands where none is given: all of its numbers are 0.
pub const NO_STAMP: Stamp = Stamp {
    days: 0,
    mins: 0,
    ticks: 0,
};
