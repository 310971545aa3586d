// A section, whichever it is: a count, and as many combinations, each with the number behind it.
#![tactic(auto)]

ghost use Rattle.std.specs.Prelude.{◌≡◌, OnErr};
ghost use Rattle.sections.specs.Parts.{least, has_in, EntriesRead, SectionRead};

pub mod fields;
mod form;

pub use form::Form;
use refusals::Refusal;
use sheet::Sheet;
use stored::Section;

// The least number that may stand behind a combination. A table would need the case as a number, so it is no plainer.
fn least(section: Section) -> usize
    ensures { result ≡ least section }
{
    match section {
        Section::Class => 0,
        Section::Either => 0,
        Section::Held => 1,
    }
}

// What a combination has in a section with this number behind it: its seconds, or 1. `least` matches the same cases, and tells another thing.
fn has_in(section: Section, number: u32) -> u32
    ensures { result ≡ has_in section number }
{
    match section {
        Section::Class => 1,
        Section::Either => 1,
        Section::Held => number,
    }
}

// What each of n combinations has in a section, 0 where it does not stand there. `barred` is not 0 for those that the section does not take.
fn read_entries(
    form: &mut Form<'_>,
    n: usize,
    section: Section,
    barred: &[u32; 32],
) -> Result<[u32; 32], Refusal>
    ensures { EntriesRead section barred.now n form.old form.new result }
{
    let top = boxes::power2(form.marks) - 1;
    let few = least(section);
    let mut own = [0u32; 32];
    let mut low: usize = 0;
    let mut sum: usize = 0;
    // a cursor of its own, so that the lent one is set once and not at each field
    let mut fields = form.fields;
    for _ in 0..n {
        let place = fields.place();
        let c = fields.field(1, low, top)?;
        if barred[c] != 0 {
            return Err(Refusal::Unreadable(place));
        }
        let most = Sheet::MOST_HELD as usize - sum;
        let behind = fields.field(section.bytes_behind(), few, most)?;
        own[c] = has_in(section, behind as u32);
        sum += behind;
        low = c + 1;
    }
    form.fields = fields;
    Ok(own)
}

// What each combination has in the section that comes next. Where it is refused the form stays where it was.
pub fn read(form: &mut Form<'_>, section: Section, barred: &[u32; 32]) -> Result<[u32; 32], Refusal>
    ensures read { SectionRead section barred.now form.old form.new result }
    ensures kept { OnErr result (form.new ≡ form.old) }
{
    let mut next = *form;
    let count = next.fields.field(2, 0, boxes::power2(form.marks))?;
    let own = read_entries(&mut next, count, section, barred)?;
    *form = next;
    Ok(own)
}
