// Numbers with a fixed count of digits.
ghost use Rattle.std.specs.Prelude.{◌≤◌, length};
ghost use Rattle.dates.specs.Texts.{Numbered};

// The number that a part writes, if all of it is digits.
pub fn read_number(part: &[u8]) -> Option<usize>
    requires { length part.now ≤ 4 }
    ensures { Numbered part.now result }
{
    let mut n: usize = 0;
    for c in part {
        let d = c.checked_sub(b'0')?;
        if 9 < d {
            return None;
        }
        n = n * 10 + usize::from(d);
    }
    Some(n)
}
