// The seconds held in a sheet's class.
#![tactic(auto, using(sheet::proofs::Limits::marks_most, sheet::proofs::Over::boxes_within))]

ghost use Rattle.std.specs.Prelude.{◌≡◌, ◌^◌, ◌<◌, ◌≤◌};
ghost use Rattle.sheet.specs.Limits.{most_marks};
ghost use Rattle.sheet.specs.Record.{in_class};
ghost use Rattle.sheet.specs.Sound.{Ready, record_of};
ghost use Rattle.sheet.specs.Told.{value_of};
ghost use Rattle.tables.specs.Tables.{own};
ghost use Rattle.totals.specs.Totals.{taken, total_of, Totalled};

use boxes;
use refusals::Refusal;
use sheet::Sheet;

// What the combination c adds to the class total: its seconds, if it is in the class.
fn seconds_of(sheet: &Sheet, c: usize) -> u64
    requires { (sheet.now.marks ≤ most_marks) × (c < 2 ^ sheet.now.marks) }
    ensures { (result ≡ taken (in_class (record_of sheet.now)) (own sheet.now.marks sheet.now.held) c) × (result < 2 ^ 32) }
{
    let at = boxes::single(sheet.marks, c);
    if sheet.outside[at] != 0 || sheet.either[at] != 0 {
        return 0;
    }
    u64::from(sheet.held[at])
}

// The total of a sound sheet. It stands beside `total`, which tests first: docs/CONTRACTS.md promises both, and a sheet that was just read is tested by none.
pub fn total_sound(sheet: &Sheet) -> u64
    requires { Ready most_marks sheet.now }
    ensures { result ≡ total_of (record_of sheet.now) }
{
    let mut total = 0;
    for c in 0..boxes::power2(sheet.marks) {
        total += seconds_of(sheet, c);
    }
    total
}

// The seconds held in the sheet's class. Why its test is its own, `class_size` of `sheet` tells.
pub fn total(sheet: &Sheet) -> Result<u64, Refusal>
    ensures { Totalled most_marks sheet.now (value_of result) }
{
    if !sheet.ready() {
        return Err(Refusal::Spoiled);
    }
    Ok(total_sound(sheet))
}
