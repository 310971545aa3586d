// The boxes of the room, and what weights make of them.
ghost use Rattle.std.specs.Prelude.{◌≤◌, ◌<◌, IfSome};

use crate::simplex::Entering;

// A box of the room, by its number.
#[derive(Clone, Copy)]
pub struct InRoom {
    pub number: usize,
    ghost few: { number < 243 },
}

// Where boxes may be laid.
#[derive(Clone, Copy)]
pub struct Room<'a> {
    // the combinations of each box
    pub sets: &'a [u32; 243],
    // the box of each single combination
    pub singles: &'a [usize; 32],
    // of each box the power of 3 of its lowest free mark, 0 where it has none
    pub lows: &'a [usize; 243],
    // the boxes that lie in the room, in rising number
    pub boxes: &'a [InRoom],
    // the combinations of the room that are not needed
    pub spare: u32,
}

// Over one mark more, with the power p, a box has the lowest free mark of the box below it, and that mark where it alone is free.
fn one_mark_more(lows: &mut [usize; 243], p: usize)
    requires { p ≤ 81 }
{
    // the part below is read while both parts above it are written; the table cut in three is no plainer
    for b in 0..p {
        let low = lows[b];
        lows[p + b] = low;
        lows[p * 2 + b] = if low == 0 { p } else { low };
    }
}

// For each box the power of 3 of its lowest free mark, 0 where it has none.
pub fn lows() -> [usize; 243] {
    let mut lows = [0usize; 243];
    one_mark_more(&mut lows, 1);
    one_mark_more(&mut lows, 3);
    one_mark_more(&mut lows, 9);
    one_mark_more(&mut lows, 27);
    one_mark_more(&mut lows, 81);
    lows
}

// Lays the boxes of the room at the front of the area, in rising number: how many they are. There is no heap to collect them in.
pub fn inside(sets: &[u32; 243], room: u32, area: &mut [InRoom; 243]) -> usize
    ensures { result ≤ 243 }
{
    let mut n: usize = 0;
    for (number, set) in sets.iter().enumerate() {
        if *set & room == *set {
            area[n] = InRoom { number };
            n += 1;
        }
    }
    n
}

impl Room<'_> {
    // The halves of a box by its lowest free mark: none where it has no free mark.
    fn halves(&self, b: InRoom) -> Option<(usize, usize)>
        ensures { IfSome result (λ halves. (halves.0 < 243) × (halves.1 < 243)) }
    {
        let low = self.lows[b.number];
        if low == 0 || b.number / 2 < low {
            return None;
        }
        Some((b.number - low * 2, b.number - low))
    }

    // What the boxes of single combinations weigh.
    fn weigh_singles(&self, y: &[f64; 32], v: &mut [f64; 243]) {
        let singles = self.singles;
        for (b, weight) in singles.iter().zip(y) {
            if *b < 243 {
                v[*b] = *weight;
            }
        }
    }

    // What the boxes of the room weigh: both their halves, where they have a free mark (boxes `sum_in_halves`).
    pub fn weigh(&self, y: &[f64; 32], v: &mut [f64; 243]) {
        self.weigh_singles(y, v);
        for b in self.boxes {
            if let Some((off, on)) = self.halves(*b) {
                v[b.number] = v[off] + v[on];
            }
        }
    }

    // Marks the boxes that weigh 1, and says how many they are.
    pub fn mark_full(&self, v: &[f64; 243], marks: &mut [f64; 243]) -> f64 {
        let mut full = 0.0;
        for b in self.boxes {
            if v[b.number] > 0.999999 {
                marks[b.number] = 1.0;
                full += 1.0;
            }
        }
        full
    }

    // Hands what is marked on a box down to its halves, the widest first: a single combination has then what is marked on the boxes it is in.
    pub fn hand_down(&self, marks: &mut [f64; 243]) {
        for b in self.boxes.iter().rev() {
            if let Some((off, on)) = self.halves(*b) {
                marks[off] += marks[b.number];
                marks[on] += marks[b.number];
            }
        }
    }

    // The box that weighs most above 1.
    fn best_box(&self, v: &[f64; 243]) -> Option<Entering> {
        let mut best = None;
        let mut most = Entering::LEAST;
        for b in self.boxes {
            let gain = v[b.number] - 1.0;
            if gain > most {
                most = gain;
                best = Some(Entering {
                    set: self.sets[b.number],
                    gain,
                });
            }
        }
        best
    }

    // What gains most by the weights y: a box that weighs more than 1, or a spare combination that weighs anything. v is lent for what the
    // boxes weigh, so that it is not made anew for each step.
    pub fn best(&self, y: &[f64; 32], v: &mut [f64; 243]) -> Option<Entering> {
        self.weigh(y, v);
        let mut best = self.best_box(v);
        let mut most = Entering::gain_of(best);
        for (c, weight) in y.iter().enumerate() {
            if self.spare >> c & 1 == 1 && *weight > most {
                most = *weight;
                best = Some(Entering {
                    set: 1 << c,
                    gain: *weight,
                });
            }
        }
        best
    }
}
