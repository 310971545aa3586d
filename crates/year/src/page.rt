// The twelve rows: the totals of the months that are over, and their texts.
ghost use Rattle.std.specs.Prelude.{◌≡◌, ◌+◌, ◌*◌, ◌≤◌, ◌<◌, length};
ghost use Rattle.print.specs.Pages.{Puts, HasRoom};
ghost use Rattle.year.specs.Prints.{month_row, month_rows};
ghost use Rattle.year.specs.Parts.{closed_with, month_in, row_room};

use print::Page;

// The months from the first of these on have this total, up to the second, which does not. `fill` of the part between
// was tried, and its proof didn't close.
pub fn close_months(totals: [u64; 12], from: usize, to: usize, total: u64) -> [u64; 12]
    requires { (1 ≤ from) × (from ≤ to) × (to ≤ 13) }
    ensures { result ≡ closed_with totals from to total }
{
    let mut closed = totals;
    for month in from..to {
        closed[month - 1] = total;
    }
    closed
}

// `01 12:30`.
fn put_row(page: &mut Page, month: u64, seconds: u64)
    requires month_bound { month < 100 }
    requires has_room { HasRoom page.old row_room }
    ensures { Puts page.old page.new (month_row month seconds) }
{
    page.put_two(month);
    page.put_byte(b' ');
    page.put_time(seconds);
    page.put_byte(b'\n');
}

// A row for each month.
pub fn put_rows(page: &mut Page, totals: &[u64])
    requires totals_len { length totals.now ≡ 12 }
    requires has_room { HasRoom page.old (row_room * 12) }
    ensures short { page.new.len ≤ page.old.len + row_room * 12 }
    ensures rows { Puts page.old page.new (month_rows (month_in totals.now) 12) }
{
    for (i, total) in totals.iter().enumerate() {
        put_row(page, i as u64 + 1, *total);
    }
}
