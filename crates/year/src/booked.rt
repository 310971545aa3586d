// What is booked of a year, and what a call without a date and a call on a day do to it.
ghost use Rattle.std.specs.Prelude.{◌≡◌, ◌+◌, ◌≤◌, length};
ghost use Rattle.bookings.specs.Bookings.{date_ok};
ghost use Rattle.year.specs.Parts.{beginning, GoesOn, BooksUndated, BooksOnDay, TotalsTo, PageLaid, rows_room};

use crate::page;
use changes;
use changes::Call;
use dates::Date;
use print::Page;
use refusals::Refusal;
use sheet::Sheet;
use totals;

// Whether a dated line has come, the sheet as of the last accepted line, the last accepted date, and the totals of the months before its month. Before
// there is an accepted date, the last one is the first of January, also behind a dated line that was refused: the flag tells nothing of it.
#[derive(Clone, Copy)]
pub struct Booked {
    pub dated: bool,
    pub sheet: Sheet,
    pub last: Date,
    pub closed: [u64; 12],
}

// Whether a line may have this date: there is such a day, it is of the year, and it is not earlier than the last.
fn in_order(date: Date, last: Date) -> bool
    ensures { result ≡ date_ok last.year last date }
{
    if !date.is_day() {
        return false;
    }
    if date.year != last.year {
        return false;
    }
    !date.is_earlier(last)
}

// `GoesOn` is asked by each method that needs it, and is no field of `Booked`: `new` makes one of any year and sheet.
impl Booked {
    // A year of which nothing is booked.
    pub fn new(year: usize, sheet: Sheet) -> Booked
        ensures { result ≡ beginning year sheet }
    {
        let last = Date {
            year,
            month: 1,
            day: 1,
        };
        Booked {
            dated: false,
            sheet,
            last,
            closed: [0u64; 12],
        }
    }

    // The totals of the months before this one. The total is asked for only where a month is over.
    fn totals_to(&self, month: usize) -> [u64; 12]
        requires goes_on { GoesOn self.now }
        requires month_le_month { (self.now.last.month ≤ month) × (month ≤ 13) }
        ensures { TotalsTo self.now month result }
    {
        if self.last.month == month {
            return self.closed;
        }
        let total = totals::total(&self.sheet).unwrap_or(0);
        page::close_months(self.closed, self.last.month, month, total)
    }

    // A call without a date: part of the opening stock, and unreadable behind a dated line.
    #[tactic(auto, using(crate::proofs::Steps::undated_stock))]
    pub fn undated(&mut self, call: Call) -> Result<(), Refusal>
        requires { GoesOn self.old }
        ensures { BooksUndated self.old call result self.new }
    {
        if self.dated {
            return Err(Refusal::Unreadable(0));
        }
        changes::did(&mut self.sheet, call)
    }

    // A call on a day. The totals are those of the sheet before the call, and are asked for behind it: a refused call asks for none.
    pub fn on_day(&mut self, date: Date, call: Call) -> Result<(), Refusal>
        requires { GoesOn self.old }
        ensures { BooksOnDay self.old date call result self.new }
    {
        self.dated = true;
        if !in_order(date, self.last) {
            return Err(Refusal::Date);
        }
        let before = *self;
        changes::did(&mut self.sheet, call)?;
        self.closed = before.totals_to(date.month);
        self.last = date;
        Ok(())
    }

    // The twelve rows.
    pub fn put_page(&self, out: &mut [u8], at: usize) -> usize
        requires goes_on { GoesOn self.now }
        requires rows_room_in_bounds { at + rows_room ≤ length out.old }
        ensures { PageLaid self.now out.old at result out.new }
    {
        let totals = self.totals_to(13);
        let mut page = Page::behind(out, at);
        page::put_rows(&mut page, &totals);
        page.len
    }
}
