// What boxes cost by weights: a certificate of how few boxes a fitting list cannot have.
#![tactic(auto)]

ghost use Rattle.std.specs.Prelude.{◌≡◌, ℕ, Bool, ◌^◌, ◌≤◌, ◌<◌};
ghost use Rattle.sets.specs.Sets.{set_marks, has, value_at, Sets};
ghost use Rattle.costs.specs.Costs.{Certified, weight};

use weights::Weights;

// The parts of a box that weights are told in.
pub const WHOLE: u64 = 65536;

// What each box costs by weights, and what the weights make of the room: a list of k boxes has `k * WHOLE + minus - plus` to spare.
#[derive(Clone, Copy)]
pub struct Certificate {
    pub costs: [u64; 243],
    pub plus: u64,
    pub minus: u64,
}

// The weight of a set of combinations.
#[tactic(auto, using(crate::proofs::Cost::weight_steps))]
fn weight_of(set: u32, weights: &[u32; 32]) -> u64
    ensures all { result ≡ weight (has set) (value_at weights.now) }
    ensures small { result < 2 ^ 37 }
{
    let mut total: u64 = 0;
    for (c, part) in weights.iter().enumerate() {
        if (set >> c) % 2 == 1 {
            total += u64::from(*part);
        }
    }
    total
}

// Weights of 0: each box costs the same, whatever is to be covered.
fn plain() -> Certificate
    ensures { (m : ℕ) (need room : ℕ → Bool) → m ≤ set_marks → Certified m result.costs need room result.plus result.minus }
{
    Certificate {
        costs: [WHOLE; 243],
        plus: 0,
        minus: 0,
    }
}

// What each box of the room costs by the weights, where none costs less than nothing; otherwise by weights of 0. It is written where it
// stays, so that its 2 kB are not copied.
fn certify(
    m: usize,
    sets: &[u32; 243],
    need: u32,
    room: u32,
    weights: &Weights,
    known: &mut Certificate,
)
    requires { (m ≤ set_marks) × Sets m sets.now }
    ensures { Certified m known.new.costs (has need) (has room) known.new.plus known.new.minus }
{
    // the number picks from two tables, of which only the front counts; a zip of both fronts is no plainer
    for b in 0..boxes::power3(m) {
        let set = sets[b];
        if set & room == set {
            let plus = weight_of(set & need, &weights.plus);
            let minus = weight_of(set, &weights.minus);
            if WHOLE + minus < plus {
                *known = plain();
                return;
            }
            known.costs[b] = WHOLE + minus - plus;
        }
    }
    known.plus = weight_of(room & need, &weights.plus);
    known.minus = weight_of(room, &weights.minus);
}

// By weights that are proposed, and checked here. m stays a number, as `seek` and `listing` have it: a type for `m <= set_marks` would be made here alone
// and opened at once.
pub fn weighed(
    m: usize,
    sets: &[u32; 243],
    singles: &[usize; 32],
    need: u32,
    room: u32,
) -> Certificate
    requires { (m ≤ set_marks) × Sets m sets.now }
    ensures { Certified m result.costs (has need) (has room) result.plus result.minus }
{
    let proposed = weights::propose(sets, singles, need, room);
    let mut known = plain();
    certify(m, sets, need, room, &proposed, &mut known);
    known
}
