// Combinations and boxes as masks: a set of marks is a number with a bit for each mark.
#![tactic(auto)]

ghost use Rattle.std.specs.Prelude.{◌≡◌, ◌+◌, ◌*◌, ◌/◌, ◌%◌, ◌^◌, ◌<◌, ◌≤◌, length};
ghost use Rattle.boxes.specs.Boxes.{contains, through, single};
ghost use Rattle.boxes.specs.Parts.{masked, Apart, Doubles, Doubled, AllThrough};

// The number of combinations of m marks. Marks are a plain number, here and above: 01's calls and a sheet's field take any, and docs/CONTRACTS.md names the
// calls that ask for `m ≤ 8`, of which a type for them would ask more.
pub fn power2(m: usize) -> usize
    requires { m ≤ 8 }
    ensures { (result ≡ 2 ^ m) × (result ≤ 256) }
{
    1 << m
}

// The powers of 3 that count boxes.
const POWERS: [u16; 9] = [1, 3, 9, 27, 81, 243, 729, 2187, 6561];

// The number of boxes over m marks.
pub fn power3(m: usize) -> usize
    requires { m ≤ 8 }
    ensures { (result ≡ 3 ^ m) × (result ≤ 6561) }
{
    usize::from(POWERS[m])
}

// A box taken apart, for tests: its free marks, and the marks that it wants on, which are its lowest combination. A number that is no box wants a mark
// on that it has free, so that nothing agrees with it.
#[derive(Clone, Copy)]
pub struct Digits {
    pub free: usize,
    pub on: usize,
}

// x with v at mark i, where x has marks below i alone.
pub fn with_mark(x: usize, i: usize, v: usize) -> usize
    requires { (i < 8) × (x < 2 ^ i) × (v < 2) }
    ensures { (result ≡ v * 2 ^ i + x) × (result < 2 ^ (i + 1)) }
{
    x | (v << i)
}

// The free marks of each box over four marks, and 16 times those that it wants on.
const MARKS: [u8; 81] = [
    0, 16, 1, 32, 48, 33, 2, 18, 3, 64, 80, 65, 96, 112, 97, 66, 82, 67, 4, 20, 5, 36, 52, 37, 6,
    22, 7, 128, 144, 129, 160, 176, 161, 130, 146, 131, 192, 208, 193, 224, 240, 225, 194, 210,
    195, 132, 148, 133, 164, 180, 165, 134, 150, 135, 8, 24, 9, 40, 56, 41, 10, 26, 11, 72, 88, 73,
    104, 120, 105, 74, 90, 75, 12, 28, 13, 44, 60, 45, 14, 30, 15,
];

// Takes the box b apart, four marks at a time: once for all the combinations that it is tested with.
pub fn digits_of(m: usize, b: usize) -> Digits
    requires { m ≤ 8 }
    ensures { Apart m b result }
{
    if power3(m) <= b {
        return Digits { free: 1, on: 1 };
    }
    let low = usize::from(MARKS[b % 81]);
    let high = usize::from(MARKS[b / 81]);
    Digits {
        free: high % 16 * 16 + low % 16,
        on: high / 16 * 16 + low / 16,
    }
}

// Whether c has the marks that the digits want, free ones aside. Marks above the box's own count: a box wants them off.
pub fn agrees(d: Digits, c: usize) -> bool
    ensures { result ≡ masked d.free d.on c }
{
    c & !d.free == d.on
}

// Whether the box b contains the combination c. A number that is no box contains nothing, one that is no combination is in no box.
pub fn contains(m: usize, b: usize, c: usize) -> bool
    requires { m ≤ 8 }
    ensures { result ≡ contains m b c }
{
    agrees(digits_of(m, b), c)
}

// The boxes of the single combinations of four marks.
const FOURS: [u8; 16] = [0, 1, 3, 4, 9, 10, 12, 13, 27, 28, 30, 31, 36, 37, 39, 40];

// The box of the single combination c: its marks as digits, four of them looked up at a time.
pub fn single(m: usize, c: usize) -> usize
    requires { m ≤ 8 }
    ensures { (result ≡ single m c) × (result < 3 ^ m) }
{
    let marks = c & (power2(m) - 1);
    usize::from(FOURS[marks % 16]) + usize::from(FOURS[marks / 16]) * 81
}

// Mark i of the combination c: 1 if it is on.
fn mark(c: usize, i: usize) -> usize
    requires { i < 64 }
    ensures { (result ≡ c / 2 ^ i % 2) × (result < 2) }
{
    (c >> i) & 1
}

// Behind the first n numbers the same again, each by so much more; n is where these begin, and no length of a buffer.
fn double(xs: &mut [u16; 256], n: usize, more: u16)
    requires { Doubles n more xs.old }
    ensures { Doubled n more xs.old xs.new }
{
    let (first, rest) = xs.split_at_mut(n);
    // by its number: with `zip` over `rest.iter_mut()` the proof didn't close, as nothing is known then of what `rest` has become
    for (t, x) in first.iter().enumerate() {
        rest[t] = *x + more;
    }
}

// The boxes that contain the combination c, by their free marks. One mark more can be free: each box that there was has its digit there raised to 2.
pub fn all_through(m: usize, c: usize) -> [u16; 256]
    requires { m ≤ 8 }
    ensures { AllThrough m c result }
{
    let mut all = [0u16; 256];
    // `as`, here and below: each fits, and a `try_from` that can't fail is no plainer
    all[0] = single(m, c) as u16;
    for i in 0..m {
        let more = (2 - mark(c, i)) * power3(i);
        double(&mut all, power2(i), more as u16);
    }
    all
}

// Of these boxes the one with the free marks t.
pub fn through(m: usize, c: usize, all: &[u16; 256], t: usize) -> usize
    requires { (m ≤ 8) × AllThrough m c all.now × (t < 2 ^ m) }
    ensures { (result ≡ through m c t) × (result < 3 ^ m) }
{
    usize::from(all[t])
}
