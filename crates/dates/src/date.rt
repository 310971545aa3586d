// A date, as three numbers: whether there is such a day, and which of two days is earlier.
ghost use Rattle.std.specs.Prelude.{◌≡◌};
ghost use Rattle.dates.specs.Gregorian.{leap, days_in, is_day, earlier};

// Dates are ordered by the year; in a year by the month; in a month by the day.
#[derive(Clone, Copy, Debug, PartialEq, Eq, PartialOrd, Ord)]
pub struct Date {
    pub year: usize,
    pub month: usize,
    pub day: usize,
}

// Whether the year has a 29th of February.
#[tactic(auto, unfolding(crate::specs::Gregorian::leap))]
pub fn is_leap(year: usize) -> bool
    ensures { result ≡ leap year }
{
    if year % 100 == 0 {
        return year % 400 == 0;
    }
    year % 4 == 0
}

// How many days a month of the year has. The calendar has no plainer rule than this table.
#[tactic(auto, unfolding(crate::specs::Gregorian::days_in))]
pub fn days_in(year: usize, month: usize) -> usize
    ensures { result ≡ days_in year month }
{
    match month {
        2 if is_leap(year) => 29,
        2 => 28,
        4 | 6 | 9 | 11 => 30,
        _ => 31,
    }
}

impl Date {
    // Whether there is such a day.
    #[tactic(auto, unfolding(crate::specs::Gregorian::is_day))]
    pub fn is_day(self) -> bool
        ensures { result ≡ is_day self }
    {
        (1..=12).contains(&self.month) && (1..=days_in(self.year, self.month)).contains(&self.day)
    }

    // Whether this date is earlier than the other: the derived order, under the name of its contract (docs/CONTRACTS.md).
    #[tactic(auto, unfolding(crate::specs::Gregorian::earlier))]
    pub fn is_earlier(self, other: Date) -> bool
        ensures { result ≡ earlier self other }
    {
        self < other
    }
}
