// The walk along the best weights. Where many boxes weigh 1, the way goes on to other weights that are as good, and the mean of all is
// taken: a box weighs 1 in it only if it does in each. Combinations count the less the more boxes of weight 1 they are in, so that these
// get lighter. Then a row is below 0, and goes out, and what comes in is what first weighs too much as the weights change (the dual
// simplex): each step leads to weights that are allowed too. A step takes as long as a pivot or two, another start as long as all pivots
// together.
use crate::room::Room;
use crate::simplex::{Entering, First, Row, Simplex, less};

// x comes closer to y, by that share of the way.
fn closer(x: &mut [f64; 32], y: &[f64; 32], share: f64) {
    for (x, y) in x.iter_mut().zip(y) {
        *x += (*y - *x) * share;
    }
}

// The sum of the weights: no list has fewer boxes.
fn bound(y: &[f64; 32]) -> f64 {
    let mut all = 0.0;
    for weight in y {
        all += *weight;
    }
    all
}

// From how many boxes of weight 1 on a walk is worth its steps: later where all of the room is needed, since such a search is soon over.
fn many(spare: u32) -> f64 {
    if spare == 0 { 51.0 } else { 37.0 }
}

// One more that can come in, if it weighs more by `size` with each part of a step.
fn offer(near: &mut First<Entering>, entering: Entering, size: f64) {
    if size > 0.0000001 {
        near.offer(entering, (0.0 - entering.gain) / size, size);
    }
}

// What is first to weigh too much as the weights y lose more and more of the row u: a box that weighs more than 1, or a spare combination
// that weighs more than nothing. The two are weighed one by one: y is the simplex's, u was worked out for this step, and a struct of both would be opened
// at once.
fn nearest(room: &Room<'_>, y: &[f64; 32], u: &[f64; 32]) -> Option<Entering> {
    let mut v = [0.0; 243];
    room.weigh(y, &mut v);
    let mut w = [0.0; 243];
    room.weigh(u, &mut w);
    let mut near = First::new();
    for b in room.boxes {
        let entering = Entering {
            set: room.sets[b.number],
            gain: v[b.number] - 1.0,
        };
        offer(&mut near, entering, 0.0 - w[b.number]);
    }
    // the number is a bit, and picks from two tables; a zip with numbers is no plainer
    for c in 0..32 {
        if room.spare >> c & 1 == 1 {
            let entering = Entering {
                set: 1 << c,
                gain: y[c],
            };
            offer(&mut near, entering, 0.0 - u[c]);
        }
    }
    near.found
}

impl Simplex {
    // What the rows come to where each combination counts for 1, and for a little less with each mark.
    fn count_anew(&mut self, singles: &[usize; 32], marks: &[f64; 243]) {
        self.x = [0.0; 32];
        for (b, column) in singles.iter().zip(&self.inverse) {
            if *b < 243 {
                less(&mut self.x, column, marks[*b] * 0.0001 - 1.0);
            }
        }
    }

    // Turns the walk to where boxes that weigh 1 in the mean get lighter. None where that is not worth a step: a list of few boxes, or of
    // boxes from a small choice, is found at once.
    fn turn(&mut self, room: &Room<'_>, mean: &[f64; 32]) -> Option<()> {
        if bound(mean) < 5.5 {
            return None;
        }
        let mut v = [0.0; 243];
        room.weigh(mean, &mut v);
        let mut marks = [0.0; 243];
        if room.mark_full(&v, &mut marks) < many(room.spare) {
            return None;
        }
        room.hand_down(&mut marks);
        self.count_anew(room.singles, &marks);
        Some(())
    }

    // The row that is furthest below 0.
    fn lowest(&self) -> Option<Row> {
        let mut row = None;
        let mut least = -0.0000001;
        for (number, x) in self.x.iter().enumerate() {
            if *x < least {
                least = *x;
                row = Some(Row { number });
            }
        }
        row
    }

    // A step: the lowest row goes out, and what is nearest comes in. None where no row is below 0, or nothing is near.
    fn step(&mut self, room: &Room<'_>) -> Option<()> {
        let row = self.lowest()?;
        let u = self.row(row);
        let near = nearest(room, &self.y, &u)?;
        // a table that tells a box of no combinations: nothing can be exchanged for it
        if near.set == 0 {
            return None;
        }
        let mut d = self.column(near.set);
        self.exchange(&mut d, row, near.gain);
        Some(())
    }

    // The mean of the best weights and of those along the walk from them.
    pub fn walk(&mut self, room: &Room<'_>) -> [f64; 32] {
        let mut mean = self.y;
        let mut seen = 1.0;
        for _ in 0..30 {
            if self.turn(room, &mean).is_none() || self.step(room).is_none() {
                return mean;
            }
            seen += 1.0;
            closer(&mut mean, &self.y, 1.0 / seen);
        }
        mean
    }
}
