// The result, laid on a page of a lent area.
ghost use Rattle.std.specs.Prelude.{◌+◌, ◌*◌, ◌≤◌, length};
ghost use Rattle.print.specs.Pages.{Puts, HasRoom};
ghost use Rattle.tables.specs.Tables.{entry};
ghost use Rattle.sheet.specs.Limits.{most_marks};
ghost use Rattle.sheet.specs.Record.{Record};
ghost use Rattle.desk.specs.Prints.{heads, box_line, box_lines, last_line};
ghost use Rattle.desk.specs.Parts.{OfRecord, SheetOfRecord, Printed, HaveEntries, heads_room, line_room, result_room};

use listing;
use machine;
use print::Page;
use sheet::Sheet;
use totals;

// `class N` and `lines N`.
fn put_heads(page: &mut Page, size: u64, count: u64)
    requires { HasRoom page.old heads_room }
    ensures { Puts page.old page.new (heads size count) }
{
    machine::put_both(page, b"class ", size, b"\nlines ", count);
}

// A line of the list: pattern and time. A row of a year has a month where this has a pattern, so it lays itself.
fn put_line(page: &mut Page, m: usize, b: usize, seconds: u64)
    requires m_le_most_marks { m ≤ most_marks }
    requires has_room { HasRoom page.old line_room }
    ensures { Puts page.old page.new (box_line m b seconds) }
{
    page.put_pattern(m, b);
    page.put_byte(b' ');
    page.put_time(seconds);
    page.put_byte(b'\n');
}

// The lines of the list, with what the table keeps of each.
fn put_lines(page: &mut Page, m: usize, held: &[u32], list: &[u8])
    requires m_le_most_marks { m ≤ most_marks }
    requires have_entries { HaveEntries list.now held.now }
    requires has_room { HasRoom page.old (line_room * length list.now) }
    ensures short { page.new.len ≤ page.old.len + line_room * length list.now }
    ensures lines { Puts page.old page.new (box_lines m (entry held.now) list.now) }
{
    for line in list {
        let b = usize::from(*line);
        put_line(page, m, b, u64::from(held[b]));
    }
}

// `total` and the time.
fn put_total(page: &mut Page, seconds: u64)
    requires { HasRoom page.old line_room }
    ensures { Puts page.old page.new (last_line seconds) }
{
    page.put(b"total ");
    page.put_time(seconds);
    page.put_byte(b'\n');
}

// The result of a sheet that was worked out afresh from a record: no call that reads it is refused (`never_refused`), and no 0 stands for a refusal.
pub fn result(out: &mut [u8], at: usize, sheet: &Sheet) -> usize
    requires sheet_of_record { SheetOfRecord sheet.now }
    requires result_room_in_bounds { at + result_room ≤ length out.old }
    ensures { (r : Record) → OfRecord sheet.now r → Printed r out.old at result out.new }
{
    let size = sheet.class_size().unwrap_or(0);
    let mut area = listing::area();
    let count = listing::list(sheet, &mut area).unwrap_or(0);
    let total = totals::total(sheet).unwrap_or(0);
    let n = count as usize;
    let mut page = Page::behind(out, at);
    put_heads(&mut page, size, count);
    put_lines(&mut page, sheet.marks, &sheet.held, &area[..n]);
    put_total(&mut page, total);
    page.len
}
