// What the two words of a line say.
ghost use Rattle.std.specs.Prelude.{◌≡◌, [], ◌∷◌, ◌+◌, ◌-◌, ◌*◌, ◌≤◌, unwrap_or};
ghost use Rattle.ground.specs.Texts.{ascii};
ghost use Rattle.sheet.specs.Limits.{most_marks};
ghost use Rattle.pla_lines.specs.Parts.{capped, Hears, Numbered, Signed, Boxed};
ghost use Rattle.pla_lines.specs.declared.Heard.TheVariants.{Unreadable};

use crate::Heard;

// The number that the digit c makes of n, or the largest of 64 bits.
fn grown(n: u64, c: u8) -> u64
    requires { (48 ≤ c) × (c ≤ 57) }
    ensures { result ≡ capped (n * 10 + (c - 48)) }
{
    n.saturating_mul(10).saturating_add(u64::from(c - b'0'))
}

// A number in digits, of any length, without a leading zero except `0` itself.
fn read_number(word: &[u8]) -> Option<u64>
    ensures { Numbered word.now result }
{
    if word.is_empty() {
        return None;
    }
    let mut n: u64 = 0;
    for (i, &c) in word.iter().enumerate() {
        if c < b'0' || b'9' < c {
            return None;
        }
        if 0 < i && n == 0 {
            return None;
        }
        n = grown(n, c);
    }
    Some(n)
}

// A box's digit by its sign: 0 off, 1 on, 2 free.
fn digit(c: u8) -> Option<usize>
    ensures { Signed c result }
{
    match c {
        b'0' => Some(0),
        b'1' => Some(1),
        b'-' => Some(2),
        _ => None,
    }
}

// The box over m marks whose pattern the word is.
fn read_cube(word: &[u8], m: usize) -> Option<usize>
    requires { m ≤ most_marks }
    ensures { Boxed m word.now result }
{
    if word.len() != m {
        return None;
    }
    let mut b: usize = 0;
    for sign in word {
        b = b * 3 + digit(*sign)?;
    }
    Some(b)
}

// A keyword and its number, or `.o 1`, or a cube and `1`; a line with `.e` is not brought here.
pub fn pair(first: &[u8], second: &[u8], m: usize) -> Option<Heard>
    requires { (m ≤ most_marks) × (first.now ≡ ascii ".e" → ⊥) }
    ensures { Hears m (first.now ∷ second.now ∷ []) (unwrap_or result Unreadable) }
{
    if first == b".i".as_slice() {
        return Some(Heard::Inputs(read_number(second)?));
    }
    if first == b".p".as_slice() {
        return Some(Heard::Count(read_number(second)?));
    }
    let is_one = second == b"1".as_slice();
    if !is_one {
        return None;
    }
    if first == b".o".as_slice() {
        return Some(Heard::Output);
    }
    Some(Heard::Cube(read_cube(first, m)?))
}
