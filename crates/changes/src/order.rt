// 01's order of tests: whether a call that changes a sheet is refused, and why; and else the move that it comes to.
ghost use Rattle.std.specs.Prelude.{◌≡◌, true, ◌&&◌, ltb, ◌<◌, IfOk, IfErr};
ghost use Rattle.boxes.specs.Boxes.{single};
ghost use Rattle.tables.specs.Tables.{touched};
ghost use Rattle.tables.specs.Parts.{Over};
ghost use Rattle.classes.specs.Standings.{tells, is_either};
ghost use Rattle.classes.specs.declared.Standing.TheVariants.{Either};
ghost use Rattle.sheet.specs.Limits.{most_marks, entries, amount_ok};
ghost use Rattle.sheet.specs.Sound.{own_in};
ghost use Rattle.sheet.specs.Record.{outside_counts, either_counts, held_seconds};
ghost use Rattle.changes.specs.Parts.{counts_fit_after, has_room, most_after, Known, Unknown, number_in};
ghost use Rattle.changes.specs.declared.Call.TheVariants.{Change};
ghost use Rattle.changes.specs.Calls.{amount_move, move_of, change_no, amount_no, number_on};

use crate::{Call, Move, moves};
use classes::Standing;
use refusals::Refusal;
use sheet::Sheet;
use tables::Shift;

// A combination that a sheet has, and its own box.
#[derive(Clone, Copy)]
struct Combination<'a> {
    sheet: &'a Sheet,
    c: usize,
    own: usize,
    ghost known: { Known sheet.now c },
    ghost is_own: { own ≡ single sheet.now.marks c },
    ghost inside: { own < entries },
}

// Whether a receipt or a withdrawal may be of d seconds.
#[tactic(auto, unfolding(sheet::specs::Limits::amount_ok))]
fn amount_ok(d: u64) -> bool
    ensures { result ≡ amount_ok d }
{
    1 <= d && d <= Sheet::MOST_AMOUNT
}

// The most that an entry may hold after a shift of its seconds: a withdrawal is judged by 0 alone, and no entry is above this.
fn most_after(by: Shift) -> u64
    ensures { result ≡ most_after by }
{
    u64::from(match by {
        Shift::Up(_) => Sheet::MOST_HELD,
        _ => u32::MAX,
    })
}

// Whether each touched entry of a time table has room for a shift of its seconds.
fn has_room(m: usize, c: usize, held: &[u32], by: Shift) -> bool
    requires { Over m c held.now }
    ensures { result ≡ touched m c (has_room by held.now) }
{
    tables::fits_at(m, c, by, held, most_after(by), 0)
}

impl<'a> Combination<'a> {
    // The first two tests: 7 if m is not 1 to 5, 2 if c is not below 2^m.
    fn of(sheet: &'a Sheet, c: usize) -> Result<Combination<'a>, Refusal>
        ensures known { IfOk result (λ k. (k.sheet.now ≡ sheet.now) × (k.c ≡ c)) }
        ensures unknown { IfErr result (Unknown sheet.now c) }
    {
        if !sheet::marks_ok(sheet.marks) {
            return Err(Refusal::Spoiled);
        }
        if boxes::power2(sheet.marks) <= c {
            return Err(Refusal::Combination);
        }
        let own = boxes::single(sheet.marks, c);
        Ok(Combination { sheet, c, own })
    }

    // Its own outside count.
    fn outside(&self) -> u32
        ensures { result ≡ own_in outside_counts self.now.sheet.now self.now.c }
    {
        self.sheet.outside[self.own]
    }

    // Its own either count.
    fn either(&self) -> u32
        ensures { result ≡ own_in either_counts self.now.sheet.now self.now.c }
    {
        self.sheet.either[self.own]
    }

    // Whether it stands so.
    fn stands(&self, to: Standing) -> bool
        ensures { result ≡ tells to (own_in outside_counts self.now.sheet.now self.now.c) (own_in either_counts self.now.sheet.now self.now.c) }
    {
        to.tells(self.outside(), self.either())
    }

    // Whether it holds what keeps it from standing so: an either combination holds nothing.
    fn holds_back(&self, to: Standing) -> bool
        ensures { result ≡ (is_either to && ltb 0 (own_in held_seconds self.now.sheet.now self.now.c)) }
    {
        match to {
            Standing::In | Standing::Out => false,
            Standing::Either => 0 < self.sheet.held[self.own],
        }
    }

    // Whether both counts of each touched box are those of a box after a move.
    fn counts_fit(&self, v: &Move) -> bool
        ensures { result ≡ counts_fit_after v.now self.now.sheet.now self.now.c }
    {
        let m = self.sheet.marks;
        tables::fits_at(m, self.c, v.outside, &self.sheet.outside, 0, 1)
            && tables::fits_at(m, self.c, v.either, &self.sheet.either, 0, 1)
    }

    // A change to a standing.
    #[tactic(auto, using(sheet::proofs::Limits::marks_most, sheet::proofs::Limits::amount_most, sheet::proofs::Over::boxes_within), unfolding(crate::specs::Calls::change_no))]
    fn change(&self, to: Standing) -> Result<Move, Refusal>
        ensures number { number_in result ≡ change_no most_marks to self.now.sheet.now self.now.c }
        ensures comes_to { IfOk result (λ v. v ≡ move_of self.now.sheet.now (Change to self.now.c)) }
    {
        if self.sheet.profile.settles(self.sheet.marks, self.c) {
            return Err(Refusal::Either);
        }
        if 1 < u64::from(self.outside()) + u64::from(self.either()) {
            return Err(Refusal::Spoiled);
        }
        if self.stands(to) {
            return Err(Refusal::Standing);
        }
        if self.holds_back(to) {
            return Err(Refusal::Either);
        }
        let v = moves::change_move(self.outside(), self.either(), to, self.c);
        if !self.counts_fit(&v) {
            return Err(Refusal::Spoiled);
        }
        Ok(v)
    }

    // A receipt or a withdrawal of d seconds.
    #[tactic(auto, using(sheet::proofs::Limits::marks_most, sheet::proofs::Limits::amount_most, sheet::proofs::Over::boxes_within, crate::proofs::Tests::amount_judged), unfolding(crate::specs::Calls::amount_no))]
    fn amount(&self, more: bool, d: u64) -> Result<Move, Refusal>
        ensures number { number_in result ≡ amount_no most_marks more self.now.sheet.now self.now.c d }
        ensures comes_to { IfOk result (λ v. v ≡ amount_move more self.now.c d) }
    {
        if !amount_ok(d) {
            return Err(Refusal::Amount);
        }
        if more && self.stands(Standing::Either) {
            return Err(Refusal::Either);
        }
        let v = moves::amount_move(more, self.c, d);
        if !has_room(self.sheet.marks, self.c, &self.sheet.held, v.held) {
            return Err(if more { Refusal::Above } else { Refusal::Below });
        }
        Ok(v)
    }
}

// The move that a call comes to.
pub fn of_call(sheet: &Sheet, call: Call) -> Result<Move, Refusal>
    ensures number { number_in result ≡ number_on most_marks sheet.now call }
    ensures comes_to { IfOk result (λ v. v ≡ move_of sheet.now call) }
{
    match call {
        Call::Change(to, c) => Combination::of(sheet, c)?.change(to),
        Call::Receive(c, d) => Combination::of(sheet, c)?.amount(true, d),
        Call::Withdraw(c, d) => Combination::of(sheet, c)?.amount(false, d),
    }
}
