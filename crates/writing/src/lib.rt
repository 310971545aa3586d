// Writing a sheet's stored form into a lent area.
#![tactic(auto)]

ghost use Rattle.std.specs.Prelude.{◌≡◌, ◌≤◌, ◌<◌, length};
ghost use Rattle.print.specs.Pages.{Puts, HasRoom};
ghost use Rattle.sheet.specs.Limits.{most_marks, entries};
ghost use Rattle.sheet.specs.Sound.{Ready};
ghost use Rattle.sheet.specs.Told.{value_of};
ghost use Rattle.stored.specs.Form.{bytes, profile_bytes};
ghost use Rattle.stored.specs.Answers.{Writes};
ghost use Rattle.writing.specs.Sections.{entry_text, list_in, count_in, section_in, Owns, GroupsFit};

use print::Page;
use profiles::Profile;
use refusals::Refusal;
use sheet::Sheet;
use stored::Section;

// A number in k bytes, low byte first.
fn put_bytes(page: &mut Page<'_>, k: usize, n: u64)
    requires few { k ≤ 8 }
    requires room { HasRoom page.old k }
    ensures { Puts page.old page.new (bytes k n) }
{
    page.put(&n.to_le_bytes()[..k]);
}

// The combination c, with the number x that it has in the section behind it, if that is not 0.
fn put_entry(page: &mut Page<'_>, c: usize, x: u32, section: Section)
    requires c_bound { c < 256 }
    requires room { HasRoom page.old (length (entry_text section c x)) }
    ensures { Puts page.old page.new (entry_text section c x) }
{
    if x == 0 {
        return;
    }
    page.put_byte(c as u8);
    put_bytes(page, section.bytes_behind(), u64::from(x));
}

// The combinations of a section, `has` telling what each has in it. A `for` and a call, as `put_rows` of year: one function for both would take the call
// as a closure.
fn put_list(page: &mut Page<'_>, has: &[u32], section: Section)
    requires has_bound { length has.now ≤ 32 }
    requires room { HasRoom page.old (length (list_in section has.now)) }
    ensures { Puts page.old page.new (list_in section has.now) }
{
    for (c, x) in has.iter().enumerate() {
        put_entry(page, c, *x, section);
    }
}

// How many combinations stand in a section.
fn size(has: &[u32]) -> usize
    ensures { result ≡ count_in has.now }
{
    has.iter().filter(|x| 0 < **x).count()
}

// A section of n combinations: its count, and those.
fn put_section(page: &mut Page<'_>, has: &[u32], section: Section, n: usize)
    requires has_bound { length has.now ≤ 32 }
    requires n_value { n ≡ count_in has.now }
    requires room { HasRoom page.old (length (section_in section has.now)) }
    ensures { Puts page.old page.new (section_in section has.now) }
{
    put_bytes(page, 2, n as u64);
    put_list(page, has, section);
}

// How many bytes a profile has. A table would need the case as a number, so it is no plainer.
fn profile_size(profile: Profile) -> usize
    ensures size { result ≡ length (profile_bytes profile) }
    ensures few { result ≤ 4 }
{
    match profile {
        Profile::None => 0,
        Profile::One(_) => 3,
        Profile::Two(_, _) => 4,
    }
}

// A profile: how many groups it has, in two bytes, and each in one.
fn put_profile(page: &mut Page<'_>, profile: Profile)
    requires groups_fit { GroupsFit profile }
    requires room { HasRoom page.old (length (profile_bytes profile)) }
    ensures { Puts page.old page.new (profile_bytes profile) }
{
    match profile {
        Profile::None => {}
        Profile::One(g) => page.put(&[1, 0, g as u8]),
        Profile::Two(g, h) => page.put(&[2, 0, g as u8, h as u8]),
    }
}

// What each combination has of its own in a table, and 0 where there is no such combination.
fn owns(m: usize, t: &[u32]) -> [u32; 32]
    requires m_le_most_marks { m ≤ most_marks }
    requires entries_in_bounds { entries ≤ length t.now }
    ensures { Owns m t.now result }
{
    let n = boxes::power2(m);
    let mut has = [0u32; 32];
    for (c, has) in has.iter_mut().enumerate() {
        if c < n {
            *has = t[boxes::single(m, c)];
        }
    }
    has
}

// Writes a sheet that is known to be sound: no entry is tested again. It stands beside `write`, since docs/CONTRACTS.md promises both.
#[tactic(auto, using(sheet::proofs::Limits::marks_most, sheet::proofs::Opening::combinations_fit))]
pub fn write_sound(sheet: &Sheet, out: &mut [u8]) -> Result<u64, Refusal>
    requires { Ready most_marks sheet.now }
    ensures { Writes most_marks sheet.now out.old (value_of result) out.new }
{
    let m = sheet.marks;
    let n = boxes::power2(m);
    let eithers = owns(m, &sheet.either);
    let ins = stored::neither(&owns(m, &sheet.outside), &eithers);
    let times = owns(m, &sheet.held);
    let class = &ins[..n];
    let either = &eithers[..n];
    let held = &times[..n];
    let a = size(class);
    let e = size(either);
    let b = size(held);
    if out.len() < 7 + a + e + b * 5 + profile_size(sheet.profile) {
        return Err(Refusal::Room);
    }
    let mut page = Page::new(out);
    page.put_byte(m as u8);
    put_section(&mut page, class, Section::Class, a);
    put_section(&mut page, either, Section::Either, e);
    put_section(&mut page, held, Section::Held, b);
    put_profile(&mut page, sheet.profile);
    Ok(page.len as u64)
}

// Writes a sheet's form in front of the lent area, and answers its length. `listing` and `checking` have the same test in front of other calls: one
// function for it would take the call as a closure, and be longer than the test.
pub fn write(sheet: &Sheet, out: &mut [u8]) -> Result<u64, Refusal>
    ensures { Writes most_marks sheet.now out.old (value_of result) out.new }
{
    if !sheet.ready() {
        return Err(Refusal::Spoiled);
    }
    write_sound(sheet, out)
}
