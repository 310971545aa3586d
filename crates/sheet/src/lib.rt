// The sheet: marks and carrier profile; for each box an outside count, an either count and held seconds; the calls that open it, and
// what reads its class. Every call takes any numbers and any sheet, spoiled ones included, and what it refuses is a row of 01's table.
#![tactic(auto, using(crate::proofs::Limits::marks_most, crate::proofs::Over::over, crate::proofs::Over::boxes_within, crate::proofs::Over::some_boxes))]

ghost use Rattle.std.specs.Prelude.{◌≡◌, ◌≤◌, cond, true};
ghost use Rattle.ground.specs.Decides.{Decides};
ghost use Rattle.tables.specs.Tables.{entry, afresh};
ghost use Rattle.profiles.specs.Profiles.{breaks};
ghost use Rattle.classes.specs.declared.Standing.TheVariants.{Out, Either};
ghost use Rattle.sheet.specs.Limits.{most_marks, entries, most_held, most_amount, marks_ok};
ghost use Rattle.sheet.specs.Record.{sheet_from, sheet_of, opened_under, opened, in_class};
ghost use Rattle.sheet.specs.Answers.{refused, open_of, open_under_of, ClassSize};
ghost use Rattle.sheet.specs.Parts.{Addable};
ghost use Rattle.sheet.specs.Sound.{ClassReady, Ready, TimesSound, record_of, size_of};
ghost use Rattle.sheet.specs.Told.{opening_of, value_of};

use boxes;
use classes::{Counts, Standing};
use profiles::Profile;
use refusals::Refusal;
use tables;

// Three tables, each tested, moved and summed as a whole: their names stand in the theorems of `kept` and `sheet_with`.
#[derive(Clone, Copy)]
pub struct Sheet {
    pub marks: usize,
    pub profile: Profile,
    pub outside: [u32; Sheet::ENTRIES],
    pub either: [u32; Sheet::ENTRIES],
    pub held: [u32; Sheet::ENTRIES],
}

// A refused opening or reading, with the sheet that it gives: that of an opened one-mark class.
#[derive(Clone, Copy)]
pub struct Refused {
    pub refusal: Refusal,
    pub sheet: Sheet,
}

impl From<Refusal> for Refused {
    ghost from_gives = { λ e r. r ≡ refused entries e };

    fn from(refusal: Refusal) -> Refused {
        Refused {
            refusal,
            sheet: Sheet::opened(1),
        }
    }
}

impl From<Refused> for Refusal {
    ghost from_gives = { λ r e. e ≡ r.refusal };

    fn from(refused: Refused) -> Refusal {
        refused.refusal
    }
}

// Whether a sheet may have m marks.
#[tactic(auto, unfolding(crate::specs::Limits::marks_ok))]
pub fn marks_ok(m: usize) -> bool
    ensures { result ≡ marks_ok most_marks m }
{
    1 <= m && m <= Sheet::MOST_MARKS
}

// The table of the sums over boxes of what each combination has of its own. m stays a number: a sheet may hold any, as C lends it, so that a type for
// `m <= most_marks` would be made anew in each call.
fn table(m: usize, own: &[u32]) -> [u32; Sheet::ENTRIES]
    requires { (m ≤ most_marks) × Addable m own.now }
    ensures { result ≡ afresh entries m (entry own.now) }
{
    let mut t = [0u32; Sheet::ENTRIES];
    tables::fill(m, own, &mut t);
    t
}

// How a combination stands when a sheet is opened. Marks and profile go as two arguments, here and below, as `breaks` and `opened_under` take them.
fn opened_as(m: usize, profile: Profile, c: usize) -> Standing
    ensures { result ≡ cond (breaks m profile c) Either Out }
{
    if profile.breaks(m, c) {
        Standing::Either
    } else {
        Standing::Out
    }
}

impl Sheet {
    pub const MOST_MARKS: usize = 5;

    pub const ENTRIES: usize = 243;

    pub const MOST_HELD: u32 = 4_000_000_000;

    pub const MOST_AMOUNT: u64 = 35_999;

    // The constants are the numbers of the definitions.
    pub fn limits()
        ensures most_marks { Sheet.MOST_MARKS ≡ most_marks }
        ensures entries { Sheet.ENTRIES ≡ entries }
        ensures most_held { Sheet.MOST_HELD ≡ most_held }
        ensures most_amount { Sheet.MOST_AMOUNT ≡ most_amount }
    {}

    // The sheet worked out afresh from what each combination adds to the outside counts and to the either counts, and the seconds that it holds.
    // The three lists stand apart, as in `sheet_from`, which theorems name.
    // Three lists, as an opening and the sections of a form give them; a struct of them would be made for this call alone.
    pub fn afresh(m: usize, profile: Profile, outs: &[u32], eithers: &[u32], times: &[u32]) -> Sheet
        requires { (m ≤ most_marks) × Addable m outs.now × Addable m eithers.now × Addable m times.now }
        ensures { result ≡ sheet_from entries m profile (entry outs.now) (entry eithers.now) (entry times.now) }
    {
        let outside = table(m, outs);
        let either = table(m, eithers);
        let held = table(m, times);
        Sheet {
            marks: m,
            profile,
            outside,
            either,
            held,
        }
    }

    // The sheet of an opened class of m marks: `opened_under` without a profile. docs/CONTRACTS.md promises it by itself.
    pub fn opened(m: usize) -> Sheet
        requires { m ≤ most_marks }
        ensures { result ≡ sheet_of entries (opened m) }
    {
        Sheet::opened_under(m, Profile::None)
    }

    // A sheet of so many marks, with every combination out and nothing held. It is no case of `open_under`: by `open_under_of` no groups are a fault.
    pub fn open(marks: usize) -> Result<Sheet, Refused>
        ensures { opening_of result ≡ open_of most_marks entries marks }
    {
        if !marks_ok(marks) {
            return Err(Refusal::Marks.into());
        }
        Ok(Sheet::opened(marks))
    }

    // The sheet of a class of m marks that is opened under a profile. The two are fields of the sheet that is made; a struct of them would be taken apart
    // again.
    fn opened_under(m: usize, profile: Profile) -> Sheet
        requires { m ≤ most_marks }
        ensures { result ≡ sheet_of entries (opened_under m profile) }
    {
        let n = boxes::power2(m);
        let mut outs = [0u32; 32];
        let mut eithers = [0u32; 32];
        // an index serves two tables at once; an iterator over both is no plainer
        for c in 0..n {
            let to = opened_as(m, profile, c);
            outs[c] = to.outs();
            eithers[c] = to.eithers();
        }
        let none = [0u32; 32];
        Sheet::afresh(m, profile, &outs, &eithers, &none)
    }

    // A sheet of so many marks under a profile of these groups: the combinations that break it are either, the others out.
    pub fn open_under(marks: usize, groups: &[u8]) -> Result<Sheet, Refused>
        ensures { opening_of result ≡ open_under_of most_marks entries marks groups.now }
    {
        if !marks_ok(marks) {
            return Err(Refusal::Marks.into());
        }
        if !profiles::names_ok(marks, groups) {
            return Err(Refusal::Profile.into());
        }
        Ok(Sheet::opened_under(marks, Profile::of(groups)))
    }

    // The counts of its class.
    fn counts(&self) -> Counts<'_>
        requires { marks_ok most_marks self.now.marks ≡ true }
        ensures { (result.marks ≡ self.now.marks) × (result.outside.now ≡ self.now.outside) × (result.either.now ≡ self.now.either) }
    {
        Counts {
            marks: self.marks,
            outside: &self.outside,
            either: &self.either,
        }
    }

    // Whether a call that reads the class can be answered: m is right, and the class table is sound.
    pub fn class_ready(&self) -> bool
        ensures { Decides result (ClassReady most_marks self.now) }
    {
        marks_ok(self.marks) && self.counts().class_sound(self.profile)
    }

    // Whether the time table is sound: each entry is the sum over its box, the sheet holds no more than it may, and what is either holds nothing.
    fn times_sound(&self) -> bool
        requires { marks_ok most_marks self.now.marks ≡ true }
        ensures { Decides result (TimesSound self.now.marks self.now.outside self.now.either self.now.held) }
    {
        let all = boxes::power3(self.marks) - 1;
        self.held[all] <= Sheet::MOST_HELD
            && self.counts().apart(&self.held)
            && tables::sums(self.marks, &self.held)
    }

    // Whether a call that reads the class and the times can be answered.
    pub fn ready(&self) -> bool
        ensures { Decides result (Ready most_marks self.now) }
    {
        self.class_ready() && self.times_sound()
    }

    // How many combinations are in the class, of a sheet whose class table is sound.
    pub fn size_sound(&self) -> u64
        requires { ClassReady most_marks self.now }
        ensures { result ≡ size_of self.now.marks (in_class (record_of self.now)) }
    {
        let all = boxes::power3(self.marks) - 1;
        boxes::power2(self.marks) as u64
            - u64::from(self.outside[all])
            - u64::from(self.either[all])
    }

    // How many combinations are in the class. `total`, `list` and `check` too test and then tell, each by its own test or promise; one function for all
    // would take both as closures.
    pub fn class_size(&self) -> Result<u64, Refusal>
        ensures { ClassSize most_marks self.now (value_of result) }
    {
        if !self.class_ready() {
            return Err(Refusal::Spoiled);
        }
        Ok(self.size_sound())
    }
}
