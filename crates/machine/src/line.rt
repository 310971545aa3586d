// The line at hand: its number, its first 40 bytes, and whether more have come.
ghost use Rattle.std.specs.Prelude.{◌≡◌, ◌+◌, ◌<◌, ◌^◌, MatchOption};

// Any numbers may stand here, a length beyond the bytes too: `next` and `cut_off` take any line (docs/CONTRACTS.md), and a type that holds its own length would ask more.
// `long` is told beside them, as `pushed` and `row_of` (specs/AtHand) speak of it: a line of 40 bytes is none of 41.
#[derive(Clone, Copy)]
pub struct Line {
    pub number: u64,
    pub text: [u8; Line::MOST],
    pub len: usize,
    pub long: bool,
}

impl Line {
    ghost use Rattle.machine.specs.Rows.{most_bytes, whole, spoiled};
    ghost use Rattle.machine.specs.AtHand.{empty, pushed, row_of, is_none, line_cut_off, cut, cut_of};

    // The bytes that a line may have.
    pub const MOST: usize = 40;

    // The constant is the number of the definitions.
    pub fn limits()
        ensures { Line.MOST ≡ most_bytes }
    {}

    // A line of which nothing has come.
    pub fn new(number: u64) -> Line
        ensures { result ≡ empty number }
    {
        Line {
            number,
            text: [0u8; Line::MOST],
            len: 0,
            long: false,
        }
    }

    // The line behind this one.
    pub fn next(&self) -> Line
        requires { self.now.number + 1 < 2 ^ 64 }
        ensures { result ≡ empty (self.now.number + 1) }
    {
        Line::new(self.number + 1)
    }

    // One byte more of the line.
    fn push(&mut self, b: u8)
        ensures { self.new ≡ pushed self.old b }
    {
        if self.len < Line::MOST {
            self.text[self.len] = b;
            self.len += 1;
        } else {
            self.long = true;
        }
    }

    // What has come of the line, if it can be read so far: nothing of one that is too long or cut off.
    pub fn text(&self) -> Option<&[u8]>
        ensures { MatchOption result (row_of self.now ≡ spoiled) (λ text. row_of self.now ≡ whole text.now) }
    {
        let lost = self.long;
        if lost {
            return None;
        }
        Some(&self.text[..self.len.min(Line::MOST)])
    }

    // Nothing has come yet. No `Option` tells this: of a spoiled line something has.
    pub fn is_none(&self) -> bool
        ensures { result ≡ is_none (row_of self.now) }
    {
        !self.long && self.len == 0
    }

    // The input ends in this line.
    pub fn cut_off(&mut self)
        ensures { self.new ≡ line_cut_off self.old }
    {
        self.long = true;
    }

    // Takes the piece up to and with its first newline, or all of it where it has none: how many bytes, and whether they end the line.
    pub fn take(&mut self, piece: &[u8]) -> (usize, bool)
        ensures { cut self.new result.0 result.1 ≡ cut_of self.old piece.now }
    {
        for (i, b) in piece.iter().enumerate() {
            let newline = *b == b'\n';
            if newline {
                return (i + 1, true);
            }
            self.push(*b);
        }
        (piece.len(), false)
    }
}
