// The best weights: a simplex in floats, from the basis of the 32 single combinations, with the box that weighs most above 1 coming in.
//
// Often many weights are best, and which of them comes out decides how many boxes weigh exactly 1, that is, how much the search has to try.
// So the combinations count for a little more than 1 each, all unlike.
use crate::room::Room;
use crate::simplex::{First, Row, Simplex};

impl Simplex {
    // The row that goes out, the first to come down to 0 as x loses more and more of d.
    fn leaving(&self, d: &[f64; 32]) -> Option<Row> {
        let mut first = First::new();
        // the number is what is looked for, and picks from two tables; a zip with numbers is no plainer
        for number in 0..32 {
            let size = d[number];
            if size > 0.000000001 {
                first.offer(Row { number }, self.x[number] / size, size);
            }
        }
        first.found
    }

    // A step: what gains most comes in. None where nothing gains, or no row can go out.
    fn rise(&mut self, room: &Room<'_>, v: &mut [f64; 243]) -> Option<()> {
        let best = room.best(&self.y, v)?;
        let mut d = self.column(best.set);
        let row = self.leaving(&d)?;
        self.exchange(&mut d, row, best.gain);
        Some(())
    }

    // The best weights from the start.
    pub fn climb(&mut self, room: &Room<'_>) {
        let mut v = [0.0; 243];
        for _ in 0..200 {
            if self.rise(room, &mut v).is_none() {
                return;
            }
        }
    }
}
