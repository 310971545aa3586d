// A session of a program that reads lines, whichever it is: bytes taken in pieces of any size, cut into lines, and answered line by line.
#![tactic(auto)]

ghost use Rattle.std.specs.Prelude.{◌≡◌};
ghost use Rattle.machine.specs.Pieces.{start};
ghost use Rattle.sessions.specs.Sessions.{room, At, SessionReady, Feeds, Closes};

use machine::{Line, Program};

// Room for what one call may write.
pub const ROOM: usize = 1280;

// The constant is the number of the definitions.
pub fn limits()
    ensures { ROOM ≡ room }
{}

// The line at hand, and where the program stands. It is copied where the program may be; `Drop` is for one that may not.
#[derive(Clone, Copy, Drop)]
pub struct Session<P> {
    pub line: Line,
    pub program: P,
}

// How much of the input a call used, and how much it wrote.
#[derive(Clone, Copy)]
pub struct Fed {
    pub used: usize,
    pub wrote: usize,
}

impl<P: Program> Session<P> {
    // A session in front of line 1.
    pub fn new() -> Session<P>
        ensures { At P.kind result (start P.kind.machine) }
    {
        Session {
            line: Line::new(1),
            program: P::new(),
        }
    }

    // Nothing more will be printed, which the program alone knows.
    pub fn is_over(&self) -> bool
        ensures { result ≡ P.kind.over self.now.program }
    {
        self.program.is_over()
    }

    // Takes the input up to and with its first newline, or all of it where it has none, and writes what is to be printed now.
    pub fn feed(&mut self, piece: &[u8], out: &mut [u8]) -> Fed
        requires { SessionReady P.kind self.old out.old }
        ensures { Feeds P.kind self.old piece.now out.old self.new result out.new }
    {
        let (used, ended) = self.line.take(piece);
        if !ended {
            return Fed { used, wrote: 0 };
        }
        let wrote = self.program.step(&self.line, out);
        self.line = self.line.next();
        Fed { used, wrote }
    }

    // The input is at its end: a last line without newline is taken as one that cannot be read, and the program stops. It takes the session by value, since
    // nothing goes on behind the end; a caller who keeps a copy can feed that on.
    pub fn finish(mut self, out: &mut [u8]) -> usize
        requires { SessionReady P.kind self out.old }
        ensures { Closes P.kind self out.old result out.new }
    {
        if self.line.is_none() {
            return self.program.stop(out, 0);
        }
        self.line.cut_off();
        let said = self.program.step(&self.line, out);
        self.program.stop(out, said)
    }
}
