// Tables of kept numbers, lent by their owner: changed at the boxes that contain one combination, tested, and worked out afresh.
#![tactic(auto)]

ghost use Rattle.std.specs.Prelude.{◌≡◌, ℕ, ◌+◌, ◌*◌, ◌-◌, ◌^◌, ◌<◌, ◌≤◌, length};
ghost use Rattle.ground.specs.Decides.{Decides};
ghost use Rattle.boxes.specs.Boxes.{sum_in, all_free};
ghost use Rattle.tables.specs.Tables.{entry, own, afresh, shifted, moved, fits_shifted, touched, Sums};
ghost use Rattle.tables.specs.Parts.{Over, Bears, AllBear, fits_moved};
ghost use Rattle.tables.specs.Thirds.{AreSums, SumsOf};

use boxes;

// What a move does to a number that is kept. `fits_shifted`, `moved` and `Bears` speak of its three cases, so none of them is an Option.
#[derive(Clone, Copy, Debug, PartialEq, Eq)]
pub enum Shift {
    Stays,
    Up(u32),
    Down(u32),
}

impl Shift {
    // Whether the number, shifted, is 0 to `most`.
    fn fits(self, x: u32, most: u64) -> bool
        ensures { result ≡ fits_shifted self most x }
    {
        match self {
            Shift::Stays => u64::from(x) <= most,
            Shift::Up(d) => u64::from(x) + u64::from(d) <= most,
            Shift::Down(d) => d <= x && u64::from(x - d) <= most,
        }
    }

    // The number, shifted.
    fn of(self, x: u32) -> u32
        requires { Bears self x }
        ensures { result ≡ shifted self x }
    {
        match self {
            Shift::Stays => x,
            Shift::Up(d) => x + d,
            Shift::Down(d) => x - d,
        }
    }
}

// Shifts each box that contains the combination c.
pub fn move_at(m: usize, c: usize, by: Shift, t: &mut [u32])
    requires over { Over m c t.old }
    requires all_bear { AllBear m c by t.old }
    ensures { t.new ≡ moved m c by t.old }
{
    if matches!(by, Shift::Stays) {
        return;
    }
    let all = boxes::all_through(m, c);
    for b in &all[..boxes::power2(m)] {
        let b = usize::from(*b);
        t[b] = by.of(t[b]);
    }
}

// Whether each entry of a box that contains the combination c, shifted, is 0 to `most` and `each` more for each combination of the box. It stands beside
// `Shift::fits`, which is of one number.
pub fn fits_at(m: usize, c: usize, by: Shift, t: &[u32], most: u64, each: u64) -> bool
    requires over { Over m c t.now }
    requires most_bound { (most < 2 ^ 33) × (each ≤ 1) }
    ensures { result ≡ touched m c (fits_moved m by t.now most each) }
{
    let all = boxes::all_through(m, c);
    for (k, b) in all[..boxes::power2(m)].iter().enumerate() {
        // `as`: std has no `From` between these widths, and a `try_from` that can't fail is no plainer
        let size = boxes::power2(k.count_ones() as usize) as u64;
        if !by.fits(t[usize::from(*b)], most + each * size) {
            return false;
        }
    }
    true
}

// Whether each entry of a box with the highest mark free is the sum of the two with it off and on.
fn are_sums(off: &[u32], on: &[u32], free: &[u32]) -> bool
    requires { (length on.now ≡ length off.now) × (length off.now ≤ length free.now) }
    ensures { Decides result (AreSums off.now on.now free.now) }
{
    let mut right = true;
    // it tests all, right or wrong, so that several can be tested at once
    for (b, part) in off.iter().enumerate() {
        right &= u64::from(free[b]) == u64::from(*part) + u64::from(on[b]);
    }
    right
}

// The number of combinations with the highest mark off.
fn half(m: usize) -> usize
    requires { (1 ≤ m) × (m ≤ 8) }
    ensures power { result ≡ 2 ^ (m - 1) }
    ensures half { result * 2 ≡ 2 ^ m }
{
    boxes::power2(m - 1)
}

// The number of boxes with the highest mark off: so many have it on, and so many have it free.
fn third(m: usize) -> usize
    requires { (1 ≤ m) × (m ≤ 8) }
    ensures power { result ≡ 3 ^ (m - 1) }
    ensures third { result * 3 ≡ 3 ^ m }
{
    boxes::power3(m - 1)
}

// Whether each entry is the sum over its box: third by third, as the highest mark is off, on, and free.
pub fn sums(m: usize, t: &[u32]) -> bool
    requires { (m ≤ 8) × (3 ^ m ≤ length t.now) }
    ensures { Decides result (Sums m (entry t.now)) }
{
    if m == 0 {
        return true;
    }
    // one mark is tested at once, as half of all calls would be for none
    if m == 1 {
        return u64::from(t[2]) == u64::from(t[0]) + u64::from(t[1]);
    }
    let p = third(m);
    let (off, rest) = t.split_at(p);
    let (on, free) = rest.split_at(p);
    if !sums(m - 1, off) {
        return false;
    }
    if !sums(m - 1, on) {
        return false;
    }
    are_sums(off, on, free)
}

// Makes those sums.
fn join(off: &[u32], on: &[u32], free: &mut [u32])
    requires long { (length off.now ≡ length free.old) × (length on.now ≡ length free.old) }
    requires few_each { (b : ℕ) → b < length free.old → entry off.now b + entry on.now b < 2 ^ 32 }
    ensures { AreSums off.now on.now free.new }
{
    // two slices by the number, as in `boxes::double`, where a `zip` over `iter_mut` was tried and its proof didn't close
    for (b, sum) in free.iter_mut().enumerate() {
        *sum = off[b] + on[b];
    }
}

// The entries of the boxes over m marks, worked out from what the combinations have of their own: those with the highest mark off, those with it on,
// and their sums.
fn fill_boxes(m: usize, own: &[u32], t: &mut [u32])
    requires m_bound { (m ≤ 8) × (2 ^ m ≤ length own.now) × (length t.old ≡ 3 ^ m) }
    requires own_bound { sum_in m (all_free m) (entry own.now) < 2 ^ 32 }
    ensures { SumsOf m own.now t.new }
{
    if m == 0 {
        t[0] = own[0];
        return;
    }
    // one mark is filled at once, as half of all calls would be for none
    if m == 1 {
        t[0] = own[0];
        t[1] = own[1];
        t[2] = own[0] + own[1];
        return;
    }
    let p = third(m);
    let (low, high) = own.split_at(half(m));
    let (off, rest) = t.split_at_mut(p);
    let (on, free) = rest.split_at_mut(p);
    fill_boxes(m - 1, low, off);
    fill_boxes(m - 1, high, on);
    join(off, on, free);
}

// The table worked out afresh from what each combination has of its own: n entries are of boxes, and the others 0.
pub fn fill(m: usize, own: &[u32], t: &mut [u32])
    requires m_bound { (m ≤ 8) × (2 ^ m ≤ length own.now) × (3 ^ m ≤ length t.old) }
    requires own_bound { sum_in m (all_free m) (entry own.now) < 2 ^ 32 }
    ensures { t.new ≡ afresh (length t.old) m (entry own.now) }
{
    let (of_boxes, others) = t.split_at_mut(boxes::power3(m));
    fill_boxes(m, own, of_boxes);
    others.fill(0);
}
