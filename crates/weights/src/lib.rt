// Proposes weights of combinations for the search for a shortest list.
//
// The programme. A list of fewest boxes that covers each needed combination once and each other one of the room at most once solves a
// linear programme in whole numbers: a variable for each box of the room, an equation for each combination, the least sum. Its dual gives
// each combination a weight, so that no box of the room weighs more than 1 and a combination that is not needed weighs nothing or less.
// All weights together are then at most the number of boxes of any list, and a box is worth a try only where it weighs nearly 1.
//
// No contract. Propose freely, check by proof: whoever uses the weights works out with whole numbers whether any box weighs too much, so
// nothing is promised but that the calls are safe and end, whatever the tables hold and however the floats round.
#![tactic(auto)]

mod climb;
mod room;
mod simplex;
mod walk;

use room::{InRoom, Room};
use simplex::{Entering, Simplex};

// What each combination weighs, `plus - minus` in parts of 65536. Two tables and no table of pairs: a sum takes one of them alone.
#[derive(Clone, Copy)]
pub struct Weights {
    pub plus: [u32; 32],
    pub minus: [u32; 32],
}

// A weight in parts of 65536, rounded down after a bit more.
fn parts(w: f64, more: f64) -> u32 {
    let z = w * 65536.0 + more;
    if z > -1.0 {
        if z < 18446744073709551616.0 {
            let n = std::num::truncating_f64_to_u64(z);
            if n < 4294967296 {
                return n as u32;
            }
        }
    }
    0
}

// Weights that lighten a box rather than make it heavier by the rounding.
fn rounded(y: &[f64; 32], scale: f64) -> Weights {
    let mut plus = [0u32; 32];
    let mut minus = [0u32; 32];
    // the number serves three tables at once, and only one of two is written; a zip of all is no plainer
    for c in 0..32 {
        let w = y[c] * scale;
        if w > 0.0 {
            plus[c] = parts(w, 0.001);
        } else {
            minus[c] = parts(0.0 - w, 0.999);
        }
    }
    Weights { plus, minus }
}

// Weights for covering `need` within `room`. `sets` has the combinations of each box, `singles` the box of each single combination.
pub fn propose(sets: &[u32; 243], singles: &[usize; 32], need: u32, room: u32) -> Weights {
    let lows = room::lows();
    let mut area = [InRoom { number: 0 }; 243];
    let n = room::inside(sets, room, &mut area);
    let room = Room {
        sets,
        singles,
        lows: &lows,
        boxes: &area[..n],
        spare: room & !need,
    };
    // made where it stays, so that its 8 kB are not copied
    let mut simplex = Simplex {
        inverse: [[0.0; 32]; 32],
        x: [0.0; 32],
        y: [0.0; 32],
    };
    simplex.begin(need);
    simplex.climb(&room);
    let mean = simplex.walk(&room);
    // where a box still weighs more than 1, all weights are made less
    let mut v = [0.0; 243];
    let most = 1.0 + Entering::gain_of(room.best(&mean, &mut v));
    rounded(&mean, 1.0 / most)
}
