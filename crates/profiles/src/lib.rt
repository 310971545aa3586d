// Carrier profiles: one or two groups of marks, of each of which a can has exactly one.
#![tactic(auto)]

ghost use Rattle.std.specs.Prelude.{◌≡◌, ℕ, ◌%◌, ◌^◌, ◌<◌, ◌≤◌};
ghost use Rattle.std.specs.Int.Bits.{bit_and};
ghost use Rattle.profiles.specs.Profiles.{common, group_ok, may_follow, followed, profile_ok, one_on, breaks, settles, count_ok, profile_of, names_ok};

// The groups of a sheet, each a number with a bit for each of its marks; a sheet may have none. It is no `Option`: `profile_of` and its theorems
// tell none, one and two apart.
#[derive(Clone, Copy, Debug, PartialEq, Eq)]
pub enum Profile {
    None,
    One(usize),
    Two(usize, usize),
}

// The first m marks, all of them on.
fn first_marks(m: usize) -> usize
    ensures { (x : ℕ) → x < 2 ^ 64 → bit_and x result ≡ x % 2 ^ m }
{
    if m < 64 {
        return (1 << m) - 1;
    }
    usize::MAX
}

// How many of the first m marks are in both.
fn common(m: usize, a: usize, b: usize) -> usize
    ensures { result ≡ common m a b }
{
    // `as`: usize has no `From<u32>`, and a `try_from` that can't fail is no plainer
    (a & b & first_marks(m)).count_ones() as usize
}

// Whether a sheet of m marks may have a group.
#[tactic(auto, unfolding(crate::specs::Profiles::group_ok))]
fn group_ok(m: usize, g: usize) -> bool
    requires { m ≤ 8 }
    ensures { result ≡ group_ok m g }
{
    g < boxes::power2(m) && 2 <= common(m, g, g)
}

// Whether exactly one mark of the group is on.
#[tactic(auto, unfolding(crate::specs::Profiles::one_on))]
fn one_on(m: usize, g: usize, c: usize) -> bool
    ensures { result ≡ one_on m g c }
{
    common(m, g, c) == 1
}

// Whether a profile can have so many groups.
#[tactic(auto, unfolding(crate::specs::Profiles::count_ok))]
pub fn count_ok(n: usize) -> bool
    ensures { result ≡ count_ok n }
{
    n == 1 || n == 2
}

impl Profile {
    // Whether a group may stand behind those of the profile.
    pub fn may_follow(self, m: usize, g: usize) -> bool
        requires { m ≤ 8 }
        ensures { result ≡ may_follow m self g }
    {
        match self {
            Profile::None => group_ok(m, g),
            Profile::One(h) => group_ok(m, g) && common(m, h, g) == 0,
            Profile::Two(..) => false,
        }
    }

    // The profile with one more group; there is no third.
    pub fn followed(self, g: usize) -> Profile
        ensures { result ≡ followed self g }
    {
        match self {
            Profile::None => Profile::One(g),
            Profile::One(h) => Profile::Two(h, g),
            Profile::Two(..) => self,
        }
    }

    // Whether a sheet of m marks may have the profile.
    pub fn ok(self, m: usize) -> bool
        requires { m ≤ 8 }
        ensures { result ≡ profile_ok m self }
    {
        match self {
            Profile::None => true,
            Profile::One(g) => Profile::None.may_follow(m, g),
            Profile::Two(g, h) => {
                Profile::None.may_follow(m, g) && Profile::One(g).may_follow(m, h)
            }
        }
    }

    // Whether a combination breaks the profile.
    pub fn breaks(self, m: usize, c: usize) -> bool
        ensures { result ≡ breaks m self c }
    {
        match self {
            Profile::None => false,
            Profile::One(g) => !one_on(m, g, c),
            Profile::Two(g, h) => !one_on(m, g, c) || !one_on(m, h, c),
        }
    }

    // Whether the profile, not being faulty, settles how a combination stands.
    pub fn settles(self, m: usize, c: usize) -> bool
        requires { m ≤ 8 }
        ensures { result ≡ settles m self c }
    {
        self.breaks(m, c) && self.ok(m)
    }

    // The profile of these groups.
    pub fn of(groups: &[u8]) -> Profile
        ensures { result ≡ profile_of groups.now }
    {
        match groups {
            [] => Profile::None,
            [g] => Profile::One(usize::from(*g)),
            [g, h, ..] => Profile::Two(usize::from(*g), usize::from(*h)),
        }
    }
}

// Whether groups are one or two, and make a profile that a sheet of m marks may have.
pub fn names_ok(m: usize, groups: &[u8]) -> bool
    requires { m ≤ 8 }
    ensures { result ≡ names_ok m groups.now }
{
    count_ok(groups.len()) && Profile::of(groups).ok(m)
}
