// Writing the shortest list of a sheet's class as a PLA text into a lent area.
#![tactic(auto)]

ghost use Rattle.std.specs.Prelude.{◌+◌, ◌≤◌, length};
ghost use Rattle.lists.specs.Lists.{most_lines};
ghost use Rattle.sheet.specs.Limits.{most_marks};
ghost use Rattle.sheet.specs.Sound.{ClassReady};
ghost use Rattle.sheet.specs.Told.{value_of};
ghost use Rattle.print.specs.Pages.{Puts, HasRoom};
ghost use Rattle.pla.specs.Writing.{cube_lines, pla_text};
ghost use Rattle.pla.specs.Answers.{WritesPla};
ghost use Rattle.pla_writing.specs.Parts.{TextSize};

use print::Page;
use refusals::Refusal;
use sheet::Sheet;

// A line for each box of a list.
fn put_cubes(page: &mut Page, m: usize, list: &[u8])
    requires { HasRoom page.old (length (cube_lines m list.now)) }
    ensures { Puts page.old page.new (cube_lines m list.now) }
{
    for b in list {
        page.put_pattern(m, usize::from(*b));
        page.put(b" 1\n");
    }
}

// The text of a list.
fn put_text(page: &mut Page, m: usize, list: &[u8])
    requires { HasRoom page.old (length (pla_text m list.now)) }
    ensures { Puts page.old page.new (pla_text m list.now) }
{
    page.put(b".i ");
    page.put_number(m as u64);
    page.put(b"\n.o 1\n.p ");
    page.put_number(list.len() as u64);
    page.put(b"\n");
    put_cubes(page, m, list);
    page.put(b".e\n");
}

// How long the text is of a list of k boxes over m marks.
fn text_size(m: usize, k: usize) -> usize
    requires { (m ≤ most_marks) × (k ≤ most_lines most_marks) }
    ensures { TextSize m k result }
{
    let digits = if k < 10 { 1 } else { 2 };
    17 + digits + k * (m + 3)
}

// Writes the list of a sheet whose class table is sound: `lent` knows that of a sheet that was just read, and does not test it again.
pub fn write_sound(sheet: &Sheet, out: &mut [u8]) -> Result<u64, Refusal>
    requires { ClassReady most_marks sheet.now }
    ensures { WritesPla most_marks sheet.now out.old (value_of result) out.new }
{
    let m = sheet.marks;
    let mut area = listing::area();
    let lines = listing::list_sound(sheet, &mut area)?;
    let k = lines as usize;
    if out.len() < text_size(m, k) {
        return Err(Refusal::Room);
    }
    let mut page = Page::new(out);
    put_text(&mut page, m, &area[..k]);
    Ok(page.len as u64)
}

// Writes the PLA text of a sheet's class in front of the lent area: its length. A test and a call, as in `listing` and `writing`: one function for them
// would take the call as a closure over the area, and be longer than each.
pub fn write(sheet: &Sheet, out: &mut [u8]) -> Result<u64, Refusal>
    ensures { WritesPla most_marks sheet.now out.old (value_of result) out.new }
{
    if !sheet.class_ready() {
        return Err(Refusal::Spoiled);
    }
    write_sound(sheet, out)
}
