// The list of a sheet's class.
#![tactic(auto, using(sheet::proofs::Limits::marks_most, sheet::proofs::Over::boxes_within))]

ghost use Rattle.std.specs.Prelude.{◌≡◌, ◌^◌, ◌<◌, ◌≤◌, length, ◌&&◌, eqb, ltb};
ghost use Rattle.sheet.specs.Limits.{most_marks, entries};
ghost use Rattle.sheet.specs.Sound.{ClassReady};
ghost use Rattle.sheet.specs.Told.{value_of};
ghost use Rattle.tables.specs.Tables.{own};
ghost use Rattle.sets.specs.Sets.{has};
ghost use Rattle.lists.specs.Lists.{Within, most_lines};
ghost use Rattle.listing.specs.Listing.{Laid, Listed};
ghost use Rattle.listing.specs.Parts.{BitsOf};

use boxes;
use lists;
use refusals::Refusal;
use seek;
use sheet::Sheet;

// What the lines of a sheet must cover, its class, and what they may cover: a bit for each combination.
#[derive(Clone, Copy, Debug, PartialEq, Eq)]
pub struct Bits {
    pub need: u32,
    pub room: u32,
}

// The combinations whose own number in a table is 0.
fn zeros(m: usize, t: &[u32]) -> u32
    requires { (m ≤ most_marks) × (entries ≤ length t.now) }
    ensures { (result < 2 ^ (2 ^ m)) × (has result ≡ (λ c. ltb c (2 ^ m) && eqb (own m t.now c) 0)) }
{
    let mut set = 0;
    // the place in the table is worked out from c, so an iterator over the table counts nothing
    for c in 0..boxes::power2(m) {
        if t[boxes::single(m, c)] == 0 {
            set |= 1 << c;
        }
    }
    set
}

// The sets that the counts tell: in are those with neither count, and those without an outside count are not out.
// Two tables, as docs/CONTRACTS.md promises it of any two.
pub fn class_bits(m: usize, outside: &[u32], either: &[u32]) -> Bits
    requires { (m ≤ most_marks) × (entries ≤ length outside.now) × (entries ≤ length either.now) }
    ensures { BitsOf m outside.now either.now result }
{
    let room = zeros(m, outside);
    Bits {
        need: room & zeros(m, either),
        room,
    }
}

// An area for a list: for as many boxes as a shortest one can have.
pub fn area() -> [u8; 16]
    ensures { most_lines most_marks ≡ length result }
{
    [0u8; 16]
}

// Lays the first shortest list of m marks that covers what it must inside what it may: how many boxes it has. The search has an area of its own; the lent
// one gets the finished list.
fn lay(m: usize, told: Bits, area: &mut [u8]) -> usize
    requires few { m ≤ most_marks }
    requires small { told.need < 2 ^ (2 ^ m) }
    requires within { Within (has told.need) (has told.room) }
    requires long { most_lines m ≤ length area.old }
    ensures { Laid m (has told.need) (has told.room) area.old result area.new }
{
    let mut own = crate::area();
    let n = lists::most_lines(m);
    let k = seek::shortest(m, told.need, told.room, &mut own[..n]);
    area[..k].copy_from_slice(&own[..k]);
    k
}

// The list of a sheet whose class table is sound. It stands beside `list`, which tests first: docs/CONTRACTS.md promises both, and a sheet that was just
// read is tested by none. The soundness is asked for: a sheet that C lends may be spoiled, so no type of it can hold that.
pub fn list_sound(sheet: &Sheet, area: &mut [u8]) -> Result<u64, Refusal>
    requires { ClassReady most_marks sheet.now }
    ensures { Listed most_marks sheet.now area.old (value_of result) area.new }
{
    if area.len() < lists::most_lines(sheet.marks) {
        return Err(Refusal::Room);
    }
    let told = class_bits(sheet.marks, &sheet.outside, &sheet.either);
    let k = lay(sheet.marks, told, area);
    Ok(k as u64)
}

// The shortest list of the sheet's class, in the lent area: its length. Why its test is its own, `class_size` of `sheet` tells.
pub fn list(sheet: &Sheet, area: &mut [u8]) -> Result<u64, Refusal>
    ensures { Listed most_marks sheet.now area.old (value_of result) area.new }
{
    if !sheet.class_ready() {
        return Err(Refusal::Spoiled);
    }
    list_sound(sheet, area)
}
