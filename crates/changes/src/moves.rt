// The moves that calls come to.
ghost use Rattle.std.specs.Prelude.{◌≡◌, ◌<◌, ◌^◌};
ghost use Rattle.classes.specs.Standings.{outs, eithers};
ghost use Rattle.changes.specs.Calls.{between, amount_shift, change_move, amount_move};

use crate::Move;
use classes::Standing;
use tables::Shift;

// A kept number, from x to y.
pub fn between(x: u32, y: u32) -> Shift
    ensures { result ≡ between x y }
{
    if x < y {
        return Shift::Up(y - x);
    }
    if y < x {
        return Shift::Down(x - y);
    }
    Shift::Stays
}

// The held seconds, more or less.
pub fn amount_shift(more: bool, d: u64) -> Shift
    requires { d < 2 ^ 32 }
    ensures { result ≡ amount_shift more d }
{
    if more {
        return Shift::Up(d as u32);
    }
    Shift::Down(d as u32)
}

// A change of standing, from own counts o and e.
pub fn change_move(o: u32, e: u32, to: Standing, c: usize) -> Move
    ensures { result ≡ change_move o e to c }
{
    Move {
        at: c,
        outside: between(o, to.outs()),
        either: between(e, to.eithers()),
        held: Shift::Stays,
    }
}

// A receipt or a withdrawal.
pub fn amount_move(more: bool, c: usize, d: u64) -> Move
    requires { d < 2 ^ 32 }
    ensures { result ≡ amount_move more c d }
{
    Move {
        at: c,
        outside: Shift::Stays,
        either: Shift::Stays,
        held: amount_shift(more, d),
    }
}
