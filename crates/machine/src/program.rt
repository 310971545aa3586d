// A program that reads lines: what a line and the end of the input do. What its lines print is told by its machine; a session runs any of them.
ghost use Rattle.std.specs.Prelude.{◌≡◌, ◌+◌, ◌≤◌, length};
ghost use Rattle.machine.specs.AtHand.{row_of};
ghost use Rattle.machine.specs.Answers.{OneAnswer};
ghost use Rattle.machine.specs.Steps.{page_room};
ghost use Rattle.machine.specs.Programs.{Kind, In, Runs, Steps, Stops, SilentWhenOver};

use crate::line::Line;

pub trait Program: Drop {
    ghost kind: { Kind Self };

    // The program in front of line 1.
    fn new() -> Self
        ensures { In kind result kind.machine.start };

    // Nothing more will be printed.
    fn is_over(&self) -> bool
        ensures { result ≡ kind.over self.now };

    // The line at hand has ended. Says how much was written.
    fn step(&mut self, line: &Line, out: &mut [u8]) -> usize
        requires runs { Runs kind self.old }
        requires page_room_in_bounds { page_room ≤ length out.old }
        ensures { Steps kind self.old line.now.number (row_of line.now) out.old self.new result out.new };

    // The input is at its end.
    fn stop(&self, out: &mut [u8], at: usize) -> usize
        requires runs { Runs kind self.now }
        requires page_room_in_bounds { at + page_room ≤ length out.old }
        ensures { Stops kind self.now out.old at result out.new };

    // The laws of the program, which say that its machine answers each line in one way, and nothing once it is over. They are clauses of a function that
    // does nothing, since their proofs need lemmas of the program's own crate.
    fn laws()
        ensures one_answer { OneAnswer kind.machine }
        ensures silent_when_over { SilentWhenOver kind };
}
