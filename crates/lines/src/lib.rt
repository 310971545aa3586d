// The desk's lines: what the bytes of a line ask for. The reader takes the verb and hands on the part of the text behind it.
#![tactic(auto)]

ghost use Rattle.std.specs.Prelude.{◌≡◌, ◌≢◌, ℕ, ◌≤◌, List, ◌++◌, MatchOption};
ghost use Rattle.machine.specs.AtHand.{row_of};
ghost use Rattle.lines.specs.Words.{Opens, Asked, RowOpens, RowAsks};
ghost use Rattle.lines.specs.Parts.{Patterned, Amounts, SaysOrNot};

use changes::Call;
use classes::Standing;
use machine::Line;
use times;
use times::{Form, Time};

// What a line behind line 1 asks for: a call on the sheet, with the form of its running time if it has one, or the end.
// The three cases stay: `Asked`, `RowAsks` and the theorems over them speak of each.
#[derive(Clone, Copy)]
pub enum Order {
    Make(Call, Option<Form>),
    End,
    Unreadable,
}

// What stands in a text behind a word that it begins with.
pub fn behind<'a>(text: &'a [u8], word: &[u8]) -> Option<&'a [u8]>
    ensures { MatchOption result ((part : List ℕ) → text.now ≢ word.now ++ part) (λ part. text.now ≡ word.now ++ part.now) }
{
    text.strip_prefix(word)
}

// P: m characters 0 or 1, highest mark first.
fn read_pattern(part: &[u8], m: usize) -> Option<usize>
    requires { m ≤ 8 }
    ensures { Patterned m part.now result }
{
    if part.len() != m {
        return None;
    }
    let mut n: usize = 0;
    for c in part {
        let d = c.checked_sub(b'0')?;
        if 1 < d {
            return None;
        }
        n = n * 2 + usize::from(d);
    }
    Some(n)
}

// P, one space and T.
fn read_amount(part: &[u8], m: usize) -> Option<(usize, u64, Form)>
    requires { m ≤ 8 }
    ensures { Amounts m part.now result }
{
    if part.len() < m {
        return None;
    }
    let (pattern, rest) = part.split_at(m);
    let [b' ', time @ ..] = rest else {
        return None;
    };
    let c = read_pattern(pattern, m)?;
    let Time::Value(d, f) = times::read(time) else {
        return None;
    };
    Some((c, d, f))
}

// What a line behind line 1 asks for, if it can be read.
fn asked(line: &[u8], m: usize) -> Option<Order>
    requires { m ≤ 8 }
    ensures { SaysOrNot m line.now result }
{
    if let Some(part) = behind(line, b"in ") {
        let c = read_pattern(part, m)?;
        return Some(Order::Make(Call::Change(Standing::In, c), None));
    }
    if let Some(part) = behind(line, b"out ") {
        let c = read_pattern(part, m)?;
        return Some(Order::Make(Call::Change(Standing::Out, c), None));
    }
    if let Some(part) = behind(line, b"recv ") {
        let (c, d, f) = read_amount(part, m)?;
        return Some(Order::Make(Call::Receive(c, d), Some(f)));
    }
    if let Some(part) = behind(line, b"gone ") {
        let (c, d, f) = read_amount(part, m)?;
        return Some(Order::Make(Call::Withdraw(c, d), Some(f)));
    }
    let part = behind(line, b"end")?;
    if !part.is_empty() {
        return None;
    }
    Some(Order::End)
}

// What the bytes of a line behind line 1 ask for, of a sheet with m marks.
pub fn read(line: &[u8], m: usize) -> Order
    requires { m ≤ 8 }
    ensures { Asked m line.now result }
{
    asked(line, m).unwrap_or(Order::Unreadable)
}

// How many marks the bytes of line 1 ask for.
pub fn read_marks(line: &[u8]) -> Option<usize>
    ensures { Opens line.now result }
{
    let [c] = behind(line, b"marks ")? else {
        return None;
    };
    let n = c.checked_sub(b'0')?;
    if 9 < n {
        return None;
    }
    Some(usize::from(n))
}

// What the line at hand asks for; one that is too long or cut off is unreadable. A generic function for this and `year_lines::slip_of` would be no shorter.
pub fn order_of(line: &Line, m: usize) -> Order
    requires { m ≤ 8 }
    ensures { RowAsks m (row_of line.now) result }
{
    let Some(text) = line.text() else {
        return Order::Unreadable;
    };
    read(text, m)
}

// How many marks the line at hand asks for as line 1.
pub fn first_of(line: &Line) -> Option<usize>
    ensures { RowOpens (row_of line.now) result }
{
    let Some(text) = line.text() else {
        return None;
    };
    read_marks(text)
}
