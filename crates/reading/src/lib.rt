// Reading a sheet's stored form, today's or 01's: any bytes, of any length.
#![tactic(auto)]

ghost use Rattle.sheet.specs.Limits.{most_marks, entries};
ghost use Rattle.stored.specs.Answers.{ReadsBy, Reads};
ghost use Rattle.stored.specs.Told.{read_as};
ghost use Rattle.stored.specs.declared.Layout.TheVariants.{First};
ghost use Rattle.reading.specs.Parts.{EitherRead, EndRead, PartsRead};

mod groups;

use profiles::Profile;
use refusals::Refusal;
use sections::Form;
use sheet::{Refused, Sheet};
use stored::{Layout, Section};

// The either section that comes next, behind a class of these combinations; 01's layout has none.
fn either_part(form: &mut Form<'_>, ins: &[u32; 32], layout: Layout) -> Result<[u32; 32], Refusal>
    ensures { EitherRead layout ins.now form.old form.new result }
{
    // Each layout has one thing to read here; a closure for it would be called in this place alone.
    match layout {
        Layout::First => Ok([0u32; 32]),
        Layout::Today => sections::read(form, Section::Either, ins),
    }
}

// The profile that comes next, behind all sections; 01's layout has none.
fn profile_part(
    form: &mut Form<'_>,
    eithers: &[u32; 32],
    layout: Layout,
) -> Result<Profile, Refusal>
    ensures { EndRead layout eithers.now form.old form.new result }
{
    // Each layout has one thing to read here too, so a closure would be called in this place alone.
    match layout {
        Layout::First => Ok(Profile::None),
        Layout::Today => groups::read(form, eithers),
    }
}

// What a form holds, of which its sheet is worked out: what each combination has in each table of its own.
#[derive(Clone, Copy)]
struct Parts {
    marks: usize,
    profile: Profile,
    outs: [u32; 32],
    eithers: [u32; 32],
    times: [u32; 32],
}

// The parts of a form of a layout. The sheet is worked out behind them: it is large, and each `?` on it would clear room for another.
fn parts_of(bytes: &[u8], layout: Layout) -> Result<Parts, Refusal>
    ensures { PartsRead layout bytes.now result }
{
    let mut form = Form::open(bytes)?;
    let marks = form.marks;
    let ins = sections::read(&mut form, Section::Class, &[0u32; 32])?;
    let eithers = either_part(&mut form, &ins, layout)?;
    let times = sections::read(&mut form, Section::Held, &eithers)?;
    let profile = profile_part(&mut form, &eithers, layout)?;
    if !form.fields.rest.is_empty() {
        return Err(Refusal::Unreadable(form.fields.place()));
    }
    Ok(Parts {
        marks,
        profile,
        outs: stored::neither(&ins, &eithers),
        eithers,
        times,
    })
}

// The sheet of a form of a layout, worked out from its parts.
fn read_by(bytes: &[u8], layout: Layout) -> Result<Sheet, Refused>
    ensures { ReadsBy layout most_marks entries bytes.now (read_as result) }
{
    let p = parts_of(bytes, layout)?;
    Ok(Sheet::afresh(p.marks, p.profile, &p.outs, &p.eithers, &p.times))
}

// Today's form.
pub fn read(bytes: &[u8]) -> Result<Sheet, Refused>
    ensures { Reads most_marks entries bytes.now (read_as result) }
{
    read_by(bytes, Layout::Today)
}

// 01's form. It stands beside `read`, since docs/CONTRACTS.md promises both.
pub fn read_first(bytes: &[u8]) -> Result<Sheet, Refused>
    ensures { ReadsBy First most_marks entries bytes.now (read_as result) }
{
    read_by(bytes, Layout::First)
}
