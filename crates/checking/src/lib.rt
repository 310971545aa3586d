// Whether a list that others drew fits the class of a sheet, and else its first fault. Any bytes are taken as box numbers, in any order and number.
#![tactic(auto, using(sheet::proofs::Limits::marks_most))]

ghost use Rattle.std.specs.Prelude.{◌≡◌, ◌<◌, ◌≤◌, ◌^◌, IfErr, MatchResult};
ghost use Rattle.sheet.specs.Limits.{most_marks};
ghost use Rattle.sheet.specs.Sound.{ClassReady};
ghost use Rattle.sets.specs.Sets.{set_marks, has, value_at, Sets};
ghost use Rattle.lists.specs.Lists.{Boxes};
ghost use Rattle.checking.specs.Faults.{NoBox, Overlaps, Leaves, fault_number};
ghost use Rattle.checking.specs.Answers.{Checked, finding_of, verdict_on};
ghost use Rattle.checking.specs.Parts.{Sought, FirstAt, AllCovered, JudgedAs};

use boxes;
use listing::Bits;
use refusals::Refusal;
use sheet::Sheet;

// The faults of a list, in the order in which they are looked for: a number that is no box, a box that overlaps an earlier one, a box that contains an out
// combination, a combination of the class that is not covered.
#[derive(Clone, Copy, Debug, PartialEq, Eq)]
pub enum Fault {
    NoBox,
    Overlap,
    Leaves,
    Uncovered,
}

impl Fault {
    // Its number, for C.
    pub fn number(self) -> u64
        ensures { result ≡ fault_number self }
    {
        match self {
            Fault::NoBox => 1,
            Fault::Overlap => 2,
            Fault::Leaves => 3,
            Fault::Uncovered => 4,
        }
    }
}

// The reply to a list, for C too: 0 with the number of the fault, 0 where it fits, and where that is; or the number of a refusal.
// Numbers, as the C interface needs them: `vault_check_list` returns this.
#[repr(C)]
#[derive(Clone, Copy)]
pub struct Verdict {
    pub answer: u64,
    pub place: u64,
    pub fault: u64,
    pub at: u64,
}

impl From<Result<Option<(Fault, usize)>, Refusal>> for Verdict {
    ghost from_gives = { λ found v. v ≡ verdict_on found };

    fn from(found: Result<Option<(Fault, usize)>, Refusal>) -> Verdict {
        let (answer, place, fault, at) = match found {
            Ok(None) => (0, 0, 0, 0),
            Ok(Some((fault, at))) => (0, 0, fault.number(), at),
            Err(refusal) => (refusal.number(), refusal.place(), 0, 0),
        };
        Verdict {
            answer,
            place: place as u64,
            fault,
            at: at as u64,
        }
    }
}

// The index of the first number that is no box over m marks. m stays a number in the parts of `judged`, and the sets go beside it: a struct of both would
// be opened in each, and `no_box` needs no sets.
fn no_box(m: usize, list: &[u8]) -> Option<usize>
    requires { m ≤ set_marks }
    ensures { Sought list.now (NoBox m list.now) result }
{
    let n = boxes::power3(m);
    list.iter().position(|b| n <= usize::from(*b))
}

// The combinations of the box with a number, none where no box has it.
fn set_of(sets: &[u32; 243], b: u8) -> u32
    ensures { (result ≡ value_at sets.now b) × (result < 2 ^ 32) }
{
    sets.get(usize::from(b)).copied().unwrap_or(0)
}

// What the boxes of a list cover together, or the first that overlaps an earlier one.
fn united(m: usize, sets: &[u32; 243], list: &[u8]) -> Result<u32, (Fault, usize)>
    requires { (m ≤ set_marks) × Sets m sets.now × Boxes m list.now }
    ensures { MatchResult result (AllCovered m list.now) (λ e. (e.0 ≡ Fault.Overlap) × FirstAt list.now (Overlaps m list.now) e.1) }
{
    let mut covered = 0;
    for (i, b) in list.iter().enumerate() {
        let set = set_of(sets, *b);
        if set & covered != 0 {
            return Err((Fault::Overlap, i));
        }
        covered |= set;
    }
    Ok(covered)
}

// The index of the first box that leaves the room.
fn leaving(m: usize, sets: &[u32; 243], room: u32, list: &[u8]) -> Option<usize>
    requires { (m ≤ set_marks) × Sets m sets.now × Boxes m list.now }
    ensures { Sought list.now (Leaves m (has room) list.now) result }
{
    list.iter().position(|b| set_of(sets, *b) & !room != 0)
}

// The first fault of a list over m marks that should cover what it must inside what it may.
fn judged(m: usize, told: Bits, list: &[u8]) -> Result<(), (Fault, usize)>
    requires { m ≤ set_marks }
    ensures { JudgedAs m (has told.need) (has told.room) list.now result }
{
    if let Some(i) = no_box(m, list) {
        return Err((Fault::NoBox, i));
    }
    let sets = sets::sets();
    let covered = united(m, sets, list)?;
    if let Some(i) = leaving(m, sets, told.room, list) {
        return Err((Fault::Leaves, i));
    }
    let missed = told.need & !covered;
    if missed != 0 {
        return Err((Fault::Uncovered, missed.trailing_zeros() as usize));
    }
    Ok(())
}

// The first fault of a list for a sheet whose class table is sound; none where it fits. It stands beside `check`, which tests first: docs/CONTRACTS.md
// promises both, and a sheet that was just read is tested by none.
pub fn check_sound(sheet: &Sheet, list: &[u8]) -> Option<(Fault, usize)>
    requires { ClassReady most_marks sheet.now }
    ensures { Checked most_marks sheet.now list.now (finding_of (Ok result)) }
{
    let told = listing::class_bits(sheet.marks, &sheet.outside, &sheet.either);
    judged(sheet.marks, told, list).err()
}

// Whether the list fits the sheet's class, and else its first fault. Why its test is its own, `class_size` of `sheet` tells.
pub fn check(sheet: &Sheet, list: &[u8]) -> Result<Option<(Fault, usize)>, Refusal>
    ensures found { Checked most_marks sheet.now list.now (finding_of result) }
    ensures refused { IfErr result (λ e. e ≡ Refusal.Spoiled) }
{
    if !sheet.class_ready() {
        return Err(Refusal::Spoiled);
    }
    Ok(check_sound(sheet, list))
}
