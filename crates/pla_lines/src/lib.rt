// The lines of a PLA text: what the line at the front of some bytes says, and how long it is.
#![tactic(auto)]

ghost use Rattle.std.specs.Prelude.{◌≡◌, ◌≤◌, length, position, unwrap_or};
ghost use Rattle.sheet.specs.Limits.{most_marks};
ghost use Rattle.pla.specs.Texts.{is_newline};
ghost use Rattle.pla_lines.specs.Lines.{first_line, words_in};
ghost use Rattle.pla_lines.specs.Parts.{Hears};
ghost use Rattle.pla_lines.specs.declared.Heard.TheVariants.{Unreadable};

mod sayings;
mod words;

// What was heard; that a line says nothing is one of the answers. A number that does not fit in 64 bits is told as the largest that does.
#[derive(Clone, Copy, Debug, PartialEq, Eq)]
pub enum Heard {
    Blank,
    Inputs(u64),
    Output,
    Count(u64),
    Cube(usize),
    End,
    Unreadable,
}

// Where the first newline stands.
fn newline(text: &[u8]) -> Option<usize>
    ensures { result ≡ position is_newline text.now }
{
    text.iter().position(|b| *b == b'\n')
}

// How many bytes the line has, its newline not among them.
pub fn size(text: &[u8]) -> usize
    ensures { result ≡ length (first_line text.now) }
{
    newline(text).unwrap_or(text.len())
}

// What the line says, in a text of m inputs; None where it says nothing. The bound on m stands wherever m is handed on: a type for it would only be opened
// again by `read_cube`, which alone uses it.
fn said(text: &[u8], m: usize) -> Option<Heard>
    requires { m ≤ most_marks }
    ensures { Hears m (words_in text.now) (unwrap_or result Unreadable) }
{
    let Some((keyword, behind)) = words::next(text) else {
        return Some(Heard::Blank);
    };
    if keyword == b".e".as_slice() {
        return Some(Heard::End);
    }
    let (argument, rest) = words::next(behind)?;
    if words::next(rest).is_some() {
        return None;
    }
    sayings::pair(keyword, argument, m)
}

// What the line says, in a text of m inputs.
pub fn read(text: &[u8], m: usize) -> Heard
    requires { m ≤ most_marks }
    ensures { Hears m (words_in text.now) result }
{
    said(text, m).unwrap_or(Heard::Unreadable)
}
