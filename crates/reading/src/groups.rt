// The profile behind the sections: a count of groups, and those, a byte each.
ghost use Rattle.std.specs.Prelude.{◌≤◌};
ghost use Rattle.ground.specs.Decides.{Decides};
ghost use Rattle.sheet.specs.Limits.{most_marks};
ghost use Rattle.reading.specs.Parts.{GroupRead, GroupsRead, Covered, ProfileRead};

use profiles::Profile;
use refusals::Refusal;
use sections::Form;

// The profile with the group that comes next.
fn read_group(form: &mut Form<'_>, profile: Profile) -> Result<Profile, Refusal>
    ensures { GroupRead profile form.old form.new result }
{
    let place = form.fields.place();
    let group = form.fields.field(1, 0, 255)?;
    if !profile.may_follow(form.marks, group) {
        return Err(Refusal::Unreadable(place));
    }
    Ok(profile.followed(group))
}

// The profile of the n groups that come next.
fn read_groups(form: &mut Form<'_>, n: usize) -> Result<Profile, Refusal>
    ensures { GroupsRead n form.old form.new result }
{
    let mut profile = Profile::None;
    for _ in 0..n {
        profile = read_group(form, profile)?;
    }
    Ok(profile)
}

// Whether each combination that breaks the profile has a number other than 0.
#[tactic(auto, using(sheet::proofs::Opening::combinations_fit))]
fn obeyed(m: usize, profile: Profile, eithers: &[u32; 32]) -> bool
    requires { m ≤ most_marks }
    ensures { Decides result (Covered m profile eithers.now) }
{
    for (c, either) in eithers[..boxes::power2(m)].iter().enumerate() {
        if profile.breaks(m, c) && *either == 0 {
            return false;
        }
    }
    true
}

// The profile that comes next, behind the sections, `eithers` telling the either combinations; or none, where the bytes end.
pub fn read(form: &mut Form<'_>, eithers: &[u32; 32]) -> Result<Profile, Refusal>
    ensures { ProfileRead eithers.now form.old form.new result }
{
    if form.fields.rest.is_empty() {
        return Ok(Profile::None);
    }
    let place = form.fields.place();
    let count = form.fields.field(2, 1, 2)?;
    let profile = read_groups(form, count)?;
    if !obeyed(form.marks, profile, eithers) {
        return Err(Refusal::Unreadable(place));
    }
    Ok(profile)
}
