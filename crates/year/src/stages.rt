// The stages of a session: what a line and the end of the input do.
ghost use Rattle.std.specs.Prelude.{◌≤◌, length};
ghost use Rattle.machine.specs.AtHand.{row_of};
ghost use Rattle.machine.specs.Steps.{page_room};
ghost use Rattle.year.specs.States.{kind};
ghost use Rattle.year.specs.Parts.{YearTaken, MarksTaken};

use crate::booked::Booked;
use desk;
use lines::Order;
use machine;
use machine::{Line, Program};
use refusals::Refusal;
use sheet::Sheet;
use year_lines;
use year_lines::Slip;

// In front of line 1, in front of line 2 with the year that line 1 named, behind it with what is booked, or over with what was booked then.
#[derive(Clone, Copy)]
pub enum Year {
    Naming,
    Opening(usize),
    Going(Booked),
    Over(Booked),
}

impl Year {
    // Line 1 has ended. The room is that of `Program::step`, as in desk.
    fn year_line(&mut self, line: &Line, out: &mut [u8]) -> usize
        requires { page_room ≤ length out.old }
        ensures { YearTaken line.now.number (row_of line.now) out.old self.new result out.new }
    {
        match year_lines::year_of(line) {
            Some(year) => {
                *self = Year::Opening(year);
                0
            }
            None => {
                *self = Year::Over(Booked::new(0, Sheet::opened(1)));
                machine::refusal(out, line.number, Refusal::Unreadable(0).number())
            }
        }
    }

    // Line 2 has ended. The desk's line 1 reads alike, but leads to its own stages: one function for both would take each of them as a closure.
    fn marks_line(&mut self, year: usize, line: &Line, out: &mut [u8]) -> usize
        requires { page_room ≤ length out.old }
        ensures { MarksTaken year line.now.number (row_of line.now) out.old self.new result out.new }
    {
        match desk::first_answer(line) {
            Ok(sheet) => {
                *self = Year::Going(Booked::new(year, sheet));
                0
            }
            Err(refused) => {
                *self = Year::Over(Booked::new(year, refused.sheet));
                machine::refusal(out, line.number, refused.refusal.number())
            }
        }
    }
}

impl Program for Year {
    ghost kind = { kind };

    fn new() -> Year {
        Year::Naming
    }

    // A match, as in desk.
    fn is_over(&self) -> bool {
        match self {
            Year::Over(_) => true,
            Year::Naming | Year::Opening(_) | Year::Going(_) => false,
        }
    }

    fn step(&mut self, line: &Line, out: &mut [u8]) -> usize {
        match self {
            Year::Naming => self.year_line(line, out),
            Year::Opening(year) => {
                let year = *year;
                self.marks_line(year, line, out)
            }
            Year::Going(booked) => {
                let answer = match year_lines::slip_of(line, booked.sheet.marks) {
                    Slip::Dated(date, call, _) => booked.on_day(date, call),
                    Slip::Plain(Order::Make(call, _)) => booked.undated(call),
                    Slip::Plain(Order::Unreadable) => Err(Refusal::Unreadable(0)),
                    Slip::Plain(Order::End) => {
                        let wrote = booked.put_page(out, 0);
                        booked.dated = false;
                        *self = Year::Over(*booked);
                        return wrote;
                    }
                };
                desk::spoken(out, line.number, answer)
            }
            Year::Over(_) => 0,
        }
    }

    fn stop(&self, out: &mut [u8], at: usize) -> usize {
        match self {
            Year::Going(booked) => booked.put_page(out, at),
            Year::Naming => at,
            Year::Opening(_) => at,
            Year::Over(_) => at,
        }
    }

    fn laws() {}
}
