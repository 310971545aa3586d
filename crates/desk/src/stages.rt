// The desk: what a line leads to and prints, and what the end of the input prints.
ghost use Rattle.std.specs.Prelude.{◌≡◌, ◌+◌, ◌≤◌, length};
ghost use Rattle.ground.specs.Areas.{Wrote};
ghost use Rattle.sheet.specs.Told.{opening_of};
ghost use Rattle.machine.specs.Machine.{spoken as spoken_text};
ghost use Rattle.machine.specs.AtHand.{row_of, refusal_room};
ghost use Rattle.machine.specs.Steps.{page_room};
ghost use Rattle.desk.specs.Prints.{first};
ghost use Rattle.desk.specs.States.{kind};
ghost use Rattle.desk.specs.Parts.{FirstAnswered, FirstTaken, answer_number};

use crate::page;
use changes;
use lines;
use lines::Order;
use machine;
use machine::{Line, Program};
use refusals::Refusal;
use sheet::{Refused, Sheet};

// In front of line 1, behind it, or over, with the sheet that it ended with.
#[derive(Clone, Copy)]
pub enum Desk {
    Opening,
    Going(Sheet),
    Over(Sheet),
}

// What the line at hand opens as line 1.
pub fn first_answer(line: &Line) -> Result<Sheet, Refused>
    ensures { FirstAnswered (row_of line.now) (opening_of result) }
{
    let marks = lines::first_of(line).ok_or(Refusal::Unreadable(0))?;
    Sheet::open(marks)
}

// Lays what a call is answered: nothing where it was done.
pub fn spoken(out: &mut [u8], number: u64, answer: Result<(), Refusal>) -> usize
    requires { refusal_room ≤ length out.old }
    ensures { Wrote out.old 0 (spoken_text number (answer_number answer)) result out.new }
{
    match answer {
        Ok(()) => 0,
        Err(refusal) => machine::refusal(out, number, refusal.number()),
    }
}

impl Desk {
    // Line 1 has ended. The room is that of `Program::step`: an area is lent anew for each line, so no type holds it.
    fn first_line(&mut self, line: &Line, out: &mut [u8]) -> usize
        requires { page_room ≤ length out.old }
        ensures { FirstTaken line.now.number (row_of line.now) out.old self.new result out.new }
    {
        match first_answer(line) {
            Ok(sheet) => {
                *self = Desk::Going(sheet);
                0
            }
            Err(refused) => {
                *self = Desk::Over(refused.sheet);
                machine::refusal(out, line.number, refused.refusal.number())
            }
        }
    }
}

impl Program for Desk {
    ghost kind = { kind };

    fn new() -> Desk {
        Desk::Opening
    }

    // A match, since `matches!` would let a further stage pass unasked.
    fn is_over(&self) -> bool {
        match self {
            Desk::Over(_) => true,
            Desk::Opening | Desk::Going(_) => false,
        }
    }

    fn step(&mut self, line: &Line, out: &mut [u8]) -> usize {
        match self {
            Desk::Opening => self.first_line(line, out),
            Desk::Going(sheet) => {
                let answer = match lines::order_of(line, sheet.marks) {
                    Order::Make(call, _) => changes::did(sheet, call),
                    Order::Unreadable => Err(Refusal::Unreadable(0)),
                    Order::End => {
                        let wrote = page::result(out, 0, sheet);
                        *self = Desk::Over(*sheet);
                        return wrote;
                    }
                };
                spoken(out, line.number, answer)
            }
            Desk::Over(_) => 0,
        }
    }

    fn stop(&self, out: &mut [u8], at: usize) -> usize {
        match self {
            Desk::Going(sheet) => page::result(out, at, sheet),
            Desk::Opening => at,
            Desk::Over(_) => at,
        }
    }

    fn laws() {}
}
