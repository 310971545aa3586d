// Lists of boxes: how many boxes a shortest one can have, and the comparison of two lent lists, where any bytes are taken as box numbers.
#![tactic(auto)]

ghost use Rattle.std.specs.Prelude.{◌≡◌, ◌≤◌};
ghost use Rattle.ground.specs.Decides.{Decides};
ghost use Rattle.lists.specs.Lists.{Before, most_lines};
ghost use Rattle.lists.specs.Compared.{HandsBack};

// The most boxes that a shortest list over m marks can have: one for each pair of combinations that differ in mark 0 alone.
pub fn most_lines(m: usize) -> usize
    requires { m ≤ 8 }
    ensures { result ≡ most_lines m }
{
    let top = boxes::power2(m) - 1;
    top / 2 + 1
}

// Whether list a is before list b: 01's order, in which the shorter list comes first, so no derive has it.
pub fn is_before(a: &[u8], b: &[u8]) -> bool
    ensures { Decides result (Before a.now b.now) }
{
    if a.len() != b.len() {
        return a.len() < b.len();
    }
    for (x, y) in a.iter().zip(b) {
        if x != y {
            return x < y;
        }
    }
    false
}

// The better of two lent lists, the slice itself: the second where it is before the first, and otherwise the first.
pub fn before<'a>(a: &'a [u8], b: &'a [u8]) -> &'a [u8]
    ensures { HandsBack a.now b.now a.entry b.entry result }
{
    if is_before(b, a) {
        return b;
    }
    a
}
