// A sheet that is lent in its stored form: read, then asked or changed, and what is left written. What the entries for C are made of.
#![tactic(auto)]

ghost use Rattle.std.specs.Prelude.{◌≡◌, Ok, IsErrAnd, MatchResult};
ghost use Rattle.tables.specs.Tables.{entry};
ghost use Rattle.sheet.specs.Limits.{most_marks};
ghost use Rattle.sheet.specs.Record.{outside_counts, either_counts, held_seconds};
ghost use Rattle.sheet.specs.Sound.{Ready};
ghost use Rattle.sheet.specs.Answers.{ClassSize};
ghost use Rattle.listing.specs.Listing.{Listed};
ghost use Rattle.totals.specs.Totals.{Totalled};
ghost use Rattle.pla.specs.Answers.{WritesPla};
ghost use Rattle.checking.specs.Answers.{verdict_on};
ghost use Rattle.stored.specs.Told.{read_as};
ghost use Rattle.changes.specs.Calls.{did_of};
ghost use Rattle.lent.specs.Entries.{ChangesBy, Changes, Tells, Judges, Lends, KeptAt, same, reply_of};

use changes::Call;
use checking::{Fault, Verdict};
use refusals::Refusal;
use sheet::{Refused, Sheet};

// What every entry returns: the number of 01's table, the place, which is 0 for every number but 10, and the value, which is 0 when refused.
// Numbers, as the C interface needs them: the entries of `vault_c` return this.
#[repr(C)]
#[derive(Clone, Copy)]
pub struct Reply {
    pub answer: u64,
    pub place: u64,
    pub value: u64,
}

impl From<Result<u64, Refusal>> for Reply {
    ghost from_gives = { λ told r. r ≡ reply_of told };

    fn from(told: Result<u64, Refusal>) -> Reply {
        let (answer, place, value) = match told {
            Ok(value) => (0, 0, value),
            Err(refusal) => (refusal.number(), refusal.place(), 0),
        };
        Reply {
            answer,
            place: place as u64,
            value,
        }
    }
}

// What was opened or read, written as it is; or its refusal.
pub fn written(read: Result<Sheet, Refused>, out: &mut [u8]) -> Result<u64, Refusal>
    requires { Ready most_marks (read_as read).sheet }
    ensures { ChangesBy (λ a. a ≡ read_as read) same out.old (reply_of result) out.new }
{
    // lent, as below: `?` on what was read would copy the sheet
    let s = sheet_in(&read)?;
    writing::write_sound(s, out)
}

// Makes a call on the lent sheet, and writes what is left.
pub fn change(sheet: &[u8], call: Call, out: &mut [u8]) -> Result<u64, Refusal>
    ensures { Changes (λ s. did_of most_marks s call) sheet.now out.old (reply_of result) out.new }
{
    let mut s = reading::read(sheet)?;
    changes::did(&mut s, call)?;
    writing::write_sound(&s, out)
}

// The sheet that was read, where it lies: a `?` on what was read would copy it.
fn sheet_in(read: &Result<Sheet, Refused>) -> Result<&Sheet, Refusal>
    ensures { MatchResult result (λ s. read.now ≡ Ok s.now) (λ e. IsErrAnd read.now (λ r. e ≡ r.refusal)) }
{
    match read {
        Ok(s) => Ok(s),
        Err(refused) => Err(refused.refusal),
    }
}

// How many combinations are in the class of the lent sheet.
pub fn class_size(sheet: &[u8]) -> Result<u64, Refusal>
    ensures { Tells (ClassSize most_marks) sheet.now (reply_of result) }
{
    let read = reading::read(sheet);
    let s = sheet_in(&read)?;
    Ok(s.size_sound())
}

// The seconds held in its class.
pub fn total(sheet: &[u8]) -> Result<u64, Refusal>
    ensures { Tells (Totalled most_marks) sheet.now (reply_of result) }
{
    let read = reading::read(sheet);
    let s = sheet_in(&read)?;
    Ok(totals::total_sound(s))
}

// The number that a table keeps of a line; one that is no box has 0.
fn kept(t: &[u32], line: u64) -> u64
    ensures { result ≡ entry t.now line }
{
    t.get(line as usize).copied().map_or(0, u64::from)
}

// The outside count of a line. For each table a call of its own: one for all would switch on which table is meant.
pub fn outside(sheet: &[u8], line: u64) -> Result<u64, Refusal>
    ensures { Tells (KeptAt outside_counts line) sheet.now (reply_of result) }
{
    let read = reading::read(sheet);
    let s = sheet_in(&read)?;
    Ok(kept(&s.outside, line))
}

// The either count of a line.
pub fn either(sheet: &[u8], line: u64) -> Result<u64, Refusal>
    ensures { Tells (KeptAt either_counts line) sheet.now (reply_of result) }
{
    let read = reading::read(sheet);
    let s = sheet_in(&read)?;
    Ok(kept(&s.either, line))
}

// The held seconds of a line.
pub fn held(sheet: &[u8], line: u64) -> Result<u64, Refusal>
    ensures { Tells (KeptAt held_seconds line) sheet.now (reply_of result) }
{
    let read = reading::read(sheet);
    let s = sheet_in(&read)?;
    Ok(kept(&s.held, line))
}

// The shortest list of its class, put into an area.
pub fn list(sheet: &[u8], area: &mut [u8]) -> Result<u64, Refusal>
    ensures { Lends (Listed most_marks) sheet.now area.old (reply_of result) area.new }
{
    let read = reading::read(sheet);
    let s = sheet_in(&read)?;
    listing::list_sound(s, area)
}

// The PLA text of that, put there.
pub fn write_pla(sheet: &[u8], out: &mut [u8]) -> Result<u64, Refusal>
    ensures { Lends (WritesPla most_marks) sheet.now out.old (reply_of result) out.new }
{
    let read = reading::read(sheet);
    let s = sheet_in(&read)?;
    pla_writing::write_sound(s, out)
}

// The first fault of a lent list for the class of the lent sheet; none where it fits.
fn judged(sheet: &[u8], list: &[u8]) -> Result<Option<(Fault, usize)>, Refusal>
    ensures { Judges sheet.now list.now (verdict_on result) }
{
    let read = reading::read(sheet);
    let s = sheet_in(&read)?;
    Ok(checking::check_sound(s, list))
}

// Whether a lent list fits the class of the lent sheet, and else its first fault.
pub fn judge(sheet: &[u8], list: &[u8]) -> Verdict
    ensures { Judges sheet.now list.now result }
{
    Verdict::from(judged(sheet, list))
}
