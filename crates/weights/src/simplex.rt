// The simplex: a basis of sets of combinations, one for each row, and the step that takes another set into it.
ghost use Rattle.std.specs.Prelude.{◌<◌};

// What the basis comes to. Rows of combinations outside the room stay as they began.
#[derive(Clone, Copy)]
pub struct Simplex {
    // The inverse of the basis by columns: a set's column is the sum of those of its combinations, and an exchange takes a multiple of one
    // column from each, so that both run along the memory.
    pub inverse: [[f64; 32]; 32],
    // how often each set of the basis is taken: by rows, where y goes by combinations, so the two are no pairs
    pub x: [f64; 32],
    // what each combination weighs
    pub y: [f64; 32],
}

// What can come in, a box or a combination that is not needed, as a set of combinations, and how much it weighs above what it may.
#[derive(Clone, Copy)]
pub struct Entering {
    pub set: u32,
    pub gain: f64,
}

impl Entering {
    // A gain that counts as none.
    pub const LEAST: f64 = 0.000000001;

    // What is gained by that which comes in, if anything does.
    pub fn gain_of(entering: Option<Entering>) -> f64 {
        match entering {
            Some(found) => found.gain,
            None => Self::LEAST,
        }
    }
}

// A row of the basis.
#[derive(Clone, Copy)]
pub struct Row {
    pub number: usize,
    ghost few: { number < 32 },
}

// What is reached first as something changes more and more; of what is reached together, that which divides best, by its size.
#[derive(Clone, Copy)]
pub struct First<T> {
    pub found: Option<T>,
    way: f64,
    size: f64,
}

impl<T: Copy> First<T> {
    pub fn new() -> First<T> {
        First {
            found: None,
            way: 1000000.0,
            size: 0.0,
        }
    }

    // One more that is reached after such a way.
    pub fn offer(&mut self, one: T, way: f64, size: f64) {
        if way < self.way - 0.000000000001 || way < self.way + 0.000000000001 && size > self.size {
            *self = First {
                found: Some(one),
                way,
                size,
            };
        }
    }
}

// t times d is taken from x.
pub fn less(x: &mut [f64; 32], d: &[f64; 32], t: f64) {
    for (x, d) in x.iter_mut().zip(d) {
        *x -= t * *d;
    }
}

impl Simplex {
    // Begins with the basis of the single combinations, where all was 0. They count for a little more than 1 each, all unlike, which ends
    // every tie between rows.
    pub fn begin(&mut self, need: u32) {
        let mut one = 1.0;
        // each number is a row, a column and a bit at once; three iterators beside one another are no plainer
        for c in 0..32 {
            self.inverse[c][c] = 1.0;
            self.x[c] = one;
            one += 0.00001;
            if need >> c & 1 == 1 {
                self.y[c] = 1.0;
            }
        }
    }

    // The column of a set of combinations.
    pub fn column(&self, set: u32) -> [f64; 32] {
        let mut d = [0.0; 32];
        for (c, column) in self.inverse.iter().enumerate() {
            if set >> c & 1 == 1 {
                less(&mut d, column, -1.0);
            }
        }
        d
    }

    // A row of the inverse.
    pub fn row(&self, row: Row) -> [f64; 32] {
        let mut u = [0.0; 32];
        for (u, column) in u.iter_mut().zip(&self.inverse) {
            *u = column[row.number];
        }
        u
    }

    // The inverse and the weights after an exchange at a row.
    fn eliminate(&mut self, d: &[f64; 32], row: Row, share: f64, gain: f64) {
        for (column, y) in self.inverse.iter_mut().zip(&mut self.y) {
            let t = column[row.number] * share;
            if t != 0.0 {
                *y -= gain * t;
                less(column, d, t);
            }
        }
    }

    // A set comes in at a row, where its column is d.
    pub fn exchange(&mut self, d: &mut [f64; 32], row: Row, gain: f64) {
        let size = d[row.number];
        let share = 1.0 / size;
        let t = self.x[row.number] * share;
        d[row.number] = size - 1.0;
        less(&mut self.x, d, t);
        self.eliminate(d, row, share, gain);
    }
}
