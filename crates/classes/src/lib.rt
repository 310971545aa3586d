// How combinations stand to a class, by their own numbers in its table of counts, and whether the table is sound.
#![tactic(auto)]

ghost use Rattle.std.specs.Prelude.{◌≡◌, true, ℕ, ◌+◌, ◌≤◌, ◌<◌, ◌^◌};
ghost use Rattle.ground.specs.Decides.{Decides};
ghost use Rattle.tables.specs.Tables.{own};
ghost use Rattle.profiles.specs.Profiles.{breaks};
ghost use Rattle.classes.specs.Parts.{TableOver};
ghost use Rattle.classes.specs.Standings.{outs, eithers, tells};
ghost use Rattle.classes.specs.Sound.{CountsSound, ClassSound, Apart};
ghost use Rattle.classes.specs.declared.Standing.TheVariants.{Either};

use profiles::Profile;

// How a combination stands to the class. Lines must contain those that are in, may not contain those that are out, and may contain those that are either.
#[derive(Clone, Copy, Debug, PartialEq, Eq)]
pub enum Standing {
    In,
    Out,
    Either,
}

impl Standing {
    // What a combination of the standing adds to the outside counts. This and the next are columns of one table: a pair would be taken apart by each caller.
    pub fn outs(self) -> u32
        ensures { result ≡ outs self }
    {
        match self {
            Standing::In => 0,
            Standing::Out => 1,
            Standing::Either => 0,
        }
    }

    // What it adds to the either counts.
    pub fn eithers(self) -> u32
        ensures { result ≡ eithers self }
    {
        match self {
            Standing::In => 0,
            Standing::Out => 0,
            Standing::Either => 1,
        }
    }

    // Whether own counts o and e are those of the standing.
    pub fn tells(self, o: u32, e: u32) -> bool
        ensures { result ≡ tells self o e }
    {
        o == self.outs() && e == self.eithers()
    }
}

// The outside and the either counts of a class.
#[derive(Clone, Copy)]
pub struct Counts<'a> {
    pub marks: usize,
    pub outside: &'a [u32],
    pub either: &'a [u32],
    ghost over_outside: { TableOver marks outside.now },
    ghost over_either: { TableOver marks either.now },
}

impl Counts<'_> {
    // Whether the own counts of a combination are those of a standing. c is a plain number, as in 01's calls, where any may come.
    fn stands(&self, c: usize, to: Standing) -> bool
        requires { c < 2 ^ self.now.marks }
        ensures { result ≡ tells to (own self.now.marks self.now.outside.now c) (own self.now.marks self.now.either.now c) }
    {
        let b = boxes::single(self.marks, c);
        to.tells(self.outside[b], self.either[b])
    }

    // Whether the own counts of a combination tell one of the three standings.
    fn tells_one(&self, c: usize) -> bool
        requires { c < 2 ^ self.now.marks }
        ensures { Decides result (own self.now.marks self.now.outside.now c + own self.now.marks self.now.either.now c ≤ 1) }
    {
        let b = boxes::single(self.marks, c);
        u64::from(self.outside[b]) + u64::from(self.either[b]) <= 1
    }

    // Whether each combination's own counts tell one of the three standings.
    fn each_tells(&self) -> bool
        ensures { Decides result ((c : ℕ) → c < 2 ^ self.now.marks → own self.now.marks self.now.outside.now c + own self.now.marks self.now.either.now c ≤ 1) }
    {
        // `(0..n).all(..)` was tried, and its proof didn't close: what holds of all didn't follow from what its closure says of each
        for c in 0..boxes::power2(self.marks) {
            if !self.tells_one(c) {
                return false;
            }
        }
        true
    }

    // Whether both counts are sound.
    fn sound(&self) -> bool
        ensures { Decides result (CountsSound self.now.marks self.now.outside.now self.now.either.now) }
    {
        self.each_tells()
            && tables::sums(self.marks, self.outside)
            && tables::sums(self.marks, self.either)
    }

    // Whether each combination that breaks the profile is either.
    fn obeys(&self, profile: Profile) -> bool
        ensures { Decides result ((c : ℕ) → c < 2 ^ self.now.marks → breaks self.now.marks profile c ≡ true → tells Either (own self.now.marks self.now.outside.now c) (own self.now.marks self.now.either.now c) ≡ true) }
    {
        // by `for`, for the reason that `each_tells` gives
        for c in 0..boxes::power2(self.marks) {
            if profile.breaks(self.marks, c) && !self.stands(c, Standing::Either) {
                return false;
            }
        }
        true
    }

    // Whether they are the class table of a sound sheet under a profile.
    pub fn class_sound(&self, profile: Profile) -> bool
        ensures { Decides result (ClassSound self.now.marks profile self.now.outside.now self.now.either.now) }
    {
        self.sound() && profile.ok(self.marks) && self.obeys(profile)
    }

    // Whether no combination that is either holds seconds.
    pub fn apart(&self, held: &[u32]) -> bool
        requires { TableOver self.now.marks held.now }
        ensures { Decides result (Apart self.now.marks self.now.outside.now self.now.either.now held.now) }
    {
        // by `for`, for the reason that `each_tells` gives
        for c in 0..boxes::power2(self.marks) {
            if 0 < held[boxes::single(self.marks, c)] && self.stands(c, Standing::Either) {
                return false;
            }
        }
        true
    }
}
