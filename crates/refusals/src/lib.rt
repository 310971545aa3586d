// Why a call is refused: 01's table of numbers as one type, so that refusals pass by `?`.
#![tactic(auto)]

ghost use Rattle.std.specs.Prelude.{◌≡◌};
ghost use Rattle.refusals.specs.Numbers.{number_of, place_of};

#[derive(Clone, Copy, Debug, PartialEq, Eq)]
pub enum Refusal {
    // Marks are not 1 to 5.
    Marks,
    // The combination is not below 2^m.
    Combination,
    // The combination has the standing already.
    Standing,
    // The amount is not 1 to 35,999 seconds.
    Amount,
    // The lent room is too short.
    Room,
    // The sheet is spoiled.
    Spoiled,
    // A receipt would take a touched entry above 4,000,000,000.
    Above,
    // A withdrawal would take a touched entry below 0.
    Below,
    // A text or a stored form is not readable from this place on.
    Unreadable(usize),
    // The date is no day, or is before the last one.
    Date,
    // The combination is either, must stay so, or holds what keeps it from being so.
    Either,
    // The carrier profile is faulty.
    Profile,
}

impl Refusal {
    // Its number in 01's table, never 0. Here alone the numbers are written out: the desk prints them and C gets them.
    pub fn number(self) -> u64
        ensures { result ≡ number_of self }
    {
        match self {
            Refusal::Marks => 1,
            Refusal::Combination => 2,
            Refusal::Standing => 3,
            Refusal::Amount => 4,
            Refusal::Room => 5,
            Refusal::Spoiled => 7,
            Refusal::Above => 8,
            Refusal::Below => 9,
            Refusal::Unreadable(_) => 10,
            Refusal::Date => 11,
            Refusal::Either => 12,
            Refusal::Profile => 13,
        }
    }

    // The place that goes with it: 0 for every number but 10.
    pub fn place(self) -> usize
        ensures { result ≡ place_of self }
    {
        match self {
            Refusal::Unreadable(place) => place,
            _ => 0,
        }
    }
}
