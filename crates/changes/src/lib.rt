// The calls that change a sheet. Every call takes any numbers and any sheet, spoiled ones included, and what it refuses is a row of 01's table.
#![tactic(auto, using(sheet::proofs::Limits::marks_most, sheet::proofs::Limits::amount_most, sheet::proofs::Over::boxes_within))]

ghost use Rattle.std.specs.Prelude.{◌≡◌, OnErr};
ghost use Rattle.classes.specs.declared.Standing.TheVariants.{In, Out, Either};
ghost use Rattle.sheet.specs.Limits.{most_marks};
ghost use Rattle.sheet.specs.Told.{answer_of};
ghost use Rattle.changes.specs.Calls.{moved_sheet, did_of};
ghost use Rattle.changes.specs.Parts.{Accepted};
ghost use Rattle.changes.specs.declared.Call.TheVariants.{Change, Receive, Withdraw};

mod moves;
mod order;

use classes::Standing;
use refusals::Refusal;
use sheet::Sheet;
use tables;
use tables::Shift;

// A call that changes a sheet, with any numbers.
#[derive(Clone, Copy, Debug, PartialEq, Eq)]
pub enum Call {
    Change(Standing, usize),
    Receive(usize, u64),
    Withdraw(usize, u64),
}

// What a call comes to: the combination, and what each table is shifted by in the boxes that contain it.
#[derive(Clone, Copy, Debug, PartialEq, Eq)]
pub struct Move {
    pub at: usize,
    pub outside: Shift,
    pub either: Shift,
    pub held: Shift,
}

impl Move {
    // Makes the move in each table.
    fn make(self, sheet: &mut Sheet)
        requires { Accepted sheet.old self }
        ensures { sheet.new ≡ moved_sheet self sheet.old }
    {
        let m = sheet.marks;
        tables::move_at(m, self.at, self.outside, &mut sheet.outside);
        tables::move_at(m, self.at, self.either, &mut sheet.either);
        tables::move_at(m, self.at, self.held, &mut sheet.held);
    }
}

// Makes a call. A refused one leaves the sheet as it was.
pub fn did(sheet: &mut Sheet, call: Call) -> Result<(), Refusal>
    ensures answer { answer_of result sheet.new ≡ did_of most_marks sheet.old call }
    ensures kept { OnErr result (sheet.new ≡ sheet.old) }
{
    let v = order::of_call(sheet, call)?;
    v.make(sheet);
    Ok(())
}

// Into the class. Sheet and combination stand side by side in five calls, as docs/CONTRACTS.md promises them.
pub fn enter(sheet: &mut Sheet, c: usize) -> Result<(), Refusal>
    ensures answer { answer_of result sheet.new ≡ did_of most_marks sheet.old (Change In c) }
    ensures kept { OnErr result (sheet.new ≡ sheet.old) }
{
    did(sheet, Call::Change(Standing::In, c))
}

// Out of the class.
pub fn leave(sheet: &mut Sheet, c: usize) -> Result<(), Refusal>
    ensures answer { answer_of result sheet.new ≡ did_of most_marks sheet.old (Change Out c) }
    ensures kept { OnErr result (sheet.new ≡ sheet.old) }
{
    did(sheet, Call::Change(Standing::Out, c))
}

// Neither in the class nor out of it: no can could have the combination.
pub fn make_either(sheet: &mut Sheet, c: usize) -> Result<(), Refusal>
    ensures answer { answer_of result sheet.new ≡ did_of most_marks sheet.old (Change Either c) }
    ensures kept { OnErr result (sheet.new ≡ sheet.old) }
{
    did(sheet, Call::Change(Standing::Either, c))
}

// A receipt of d seconds.
pub fn receive(sheet: &mut Sheet, c: usize, d: u64) -> Result<(), Refusal>
    ensures answer { answer_of result sheet.new ≡ did_of most_marks sheet.old (Receive c d) }
    ensures kept { OnErr result (sheet.new ≡ sheet.old) }
{
    did(sheet, Call::Receive(c, d))
}

// A withdrawal of d seconds.
pub fn withdraw(sheet: &mut Sheet, c: usize, d: u64) -> Result<(), Refusal>
    ensures answer { answer_of result sheet.new ≡ did_of most_marks sheet.old (Withdraw c d) }
    ensures kept { OnErr result (sheet.new ≡ sheet.old) }
{
    did(sheet, Call::Withdraw(c, d))
}
