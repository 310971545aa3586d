// The lines of a year: line 1 names it, and behind `marks` a line is one of the desk's, or one of these with a date in front.
#![tactic(auto)]

ghost use Rattle.std.specs.Prelude.{◌≤◌};
ghost use Rattle.machine.specs.AtHand.{row_of};
ghost use Rattle.year_lines.specs.Slips.{NamesYear, RowNames, Asked, RowAsks};
ghost use Rattle.year_lines.specs.Parts.{DatedOr};

use changes::Call;
use dates;
use dates::Date;
use lines;
use lines::Order;
use machine::Line;
use times::Form;

// What a line behind line 2 asks for: a call on a day, with the form of its running time if it has one, or what it asks for as a line of the desk.
#[derive(Clone, Copy)]
pub enum Slip {
    Dated(Date, Call, Option<Form>),
    Plain(Order),
}

// The year that the bytes of line 1 name: `year` and four digits, 1600 to 9999.
pub fn read_year(line: &[u8]) -> Option<usize>
    ensures { NamesYear line.now result }
{
    let part = lines::behind(line, b"year ")?;
    if part.len() != 4 {
        return None;
    }
    let year = dates::read_number(part)?;
    if year < 1600 {
        return None;
    }
    Some(year)
}

// What a line asks for that has a date in front. Behind the date it is read as a whole line, and only a call may stand there.
fn dated(line: &[u8], m: usize) -> Option<Slip>
    requires { m ≤ 8 }
    ensures { DatedOr m line.now result }
{
    let date = dates::read_date(line)?;
    let Order::Make(call, form) = lines::read(&line[11..], m) else {
        return None;
    };
    Some(Slip::Dated(date, call, form))
}

// What the bytes of a line behind line 2 ask for, of a sheet with m marks.
pub fn read(line: &[u8], m: usize) -> Slip
    requires { m ≤ 8 }
    ensures { Asked m line.now result }
{
    if let Some(slip) = dated(line, m) {
        return slip;
    }
    Slip::Plain(lines::read(line, m))
}

// The year that the line at hand names as line 1; one that is too long or cut off names none.
pub fn year_of(line: &Line) -> Option<usize>
    ensures { RowNames (row_of line.now) result }
{
    let Some(text) = line.text() else {
        return None;
    };
    read_year(text)
}

// What the line at hand asks for behind line 2; one that is too long or cut off is unreadable. A generic function for this and `lines::order_of` would be no shorter.
pub fn slip_of(line: &Line, m: usize) -> Slip
    requires { m ≤ 8 }
    ensures { RowAsks m (row_of line.now) result }
{
    let Some(text) = line.text() else {
        return Slip::Plain(Order::Unreadable);
    };
    read(text, m)
}
