// The stored form of a sheet: what it is, and what its reader and its writer promise. The functions are those of `reading` and `writing`.
#![tactic(auto)]

ghost use Rattle.std.specs.Prelude.{◌≡◌, ◌≤◌};
ghost use Rattle.stored.specs.Sections.{bytes_behind};
ghost use Rattle.stored.specs.Parts.{Neither};

// The layouts of a stored form: 01's, and today's, which has the either combinations behind the class and may end with a profile.
#[derive(Clone, Copy, Debug, PartialEq, Eq)]
pub enum Layout {
    First,
    Today,
}

// The sections of a form: the combinations in the class, those that are either, and those that hold seconds.
#[derive(Clone, Copy, Debug, PartialEq, Eq)]
pub enum Section {
    Class,
    Either,
    Held,
}

impl Section {
    // How many bytes stand behind each combination of the section. A table would need the case as a number, so it is no plainer.
    pub fn bytes_behind(self) -> usize
        ensures { (result ≡ bytes_behind self) × (result ≤ 4) }
    {
        match self {
            Section::Class => 0,
            Section::Either => 0,
            Section::Held => 4,
        }
    }
}

// 1 for each combination that has 0 in both lists: of those in and those either it makes those out, and of those out and those either those in.
// Two lists, since the caller has them from two sections or two tables.
pub fn neither(a: &[u32; 32], b: &[u32; 32]) -> [u32; 32]
    ensures { Neither a.now b.now result }
{
    let mut rest = [0u32; 32];
    for (c, rest) in rest.iter_mut().enumerate() {
        *rest = u32::from(a[c] == 0 && b[c] == 0);
    }
    rest
}
