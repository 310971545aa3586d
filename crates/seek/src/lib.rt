// The search for the first shortest list. Sets of combinations are numbers, a bit for each combination (`sets`).
#![tactic(auto)]

ghost use Rattle.std.specs.Prelude.{◌≡◌, ◌+◌, ◌*◌, ◌-◌, ◌^◌, ◌≤◌, ◌<◌, length};
ghost use Rattle.boxes.specs.Boxes.{through};
ghost use Rattle.lists.specs.Lists.{lowest_of};
ghost use Rattle.sets.specs.Sets.{set_marks, has, Sets, Singles};
ghost use Rattle.seek.specs.Answer.{Askable, Sought};
ghost use Rattle.costs.specs.Costs.{Certified};
ghost use Rattle.seek.specs.Steps.{Reached, Stage, IsOpen};

use costs::Certificate;

// What a search goes by: it stays the same at every node.
#[derive(Clone, Copy)]
struct Search<'a> {
    marks: usize,
    sets: &'a [u32; 243],
    singles: &'a [usize; 32],
    known: &'a Certificate,
    ghost few: { marks ≤ set_marks },
    ghost of_boxes: { Sets marks sets.now },
    ghost of_singles: { Singles marks singles.now },
}

// What is still to be covered, and inside what; how many boxes are left for it, and what they may cost.
#[derive(Clone, Copy)]
struct Node {
    need: u32,
    room: u32,
    left: usize,
    spare: u64,
}

impl Search<'_> {
    // The box through the combination c with such free marks.
    fn box_on(&self, c: usize, free: usize) -> usize
        requires c_in_bounds { c < 2 ^ self.now.marks }
        requires free_in_bounds { free < 2 ^ self.now.marks }
        ensures is_through { result ≡ through self.now.marks c free }
        ensures within { (result < 3 ^ self.now.marks) × (result < 3 ^ set_marks) }
    {
        self.singles[c | free] + self.singles[free]
    }

    // Lays as many boxes as are left on all that is needed, inside the room: on the lowest combination that is not covered, and so on.
    // Whether it could, a bool here and below: there is nothing to hand on, and an Option of nothing is no plainer.
    #[cycle(cover_try_boxes)]
    fn cover(&self, node: Node, area: &mut [u8]) -> bool
        requires node { IsOpen self.now.marks self.now.known.now.costs node }
        requires left_in_bounds { node.left ≤ length area.old }
        ensures { Reached self.now.marks (has node.need) (has node.room) node.left result area.new }
    {
        if node.need == 0 {
            return true;
        }
        if node.left == 0 {
            return false;
        }
        let c = node.need.trailing_zeros() as usize;
        self.try_boxes(node, c, area)
    }

    // Lays a box on the combination c, and then the others: the boxes through c are tried in rising number.
    #[cycle(cover_try_boxes)]
    fn try_boxes(&self, node: Node, c: usize, area: &mut [u8]) -> bool
        requires node { IsOpen self.now.marks self.now.known.now.costs node }
        requires some_left { 0 < node.left }
        requires left_in_bounds { node.left ≤ length area.old }
        requires lowest { (lowest_of self.now.marks (has node.need) ≡ c) × (c < 2 ^ self.now.marks) }
        ensures { Reached self.now.marks (has node.need) (has node.room) node.left result area.new }
    {
        let Some((first, behind)) = area.split_first_mut() else {
            unreachable!();
        };
        let n = boxes::power2(self.marks);
        for free in 0..n {
            let b = self.box_on(c, free);
            let set = self.sets[b];
            if set & node.room == set && self.known.costs[b] <= node.spare {
                *first = b as u8;
                let below = Node {
                    need: node.need & !set,
                    room: node.room & !set,
                    left: node.left - 1,
                    spare: node.spare - self.known.costs[b],
                };
                if self.cover(below, behind) {
                    return true;
                }
            }
        }
        false
    }

    // Lays k boxes, where no list has fewer.
    fn of_size(&self, need: u32, room: u32, k: usize, area: &mut [u8]) -> bool
        requires stage { Stage self.now.marks need room k }
        requires certified { Certified self.now.marks self.now.known.now.costs (has need) (has room) self.now.known.now.plus self.now.known.now.minus }
        requires k_bound { (k ≤ 2 ^ set_marks) × (k ≤ length area.old) }
        ensures { Reached self.now.marks (has need) (has room) k result area.new }
    {
        let all = k as u64 * costs::WHOLE + self.known.minus;
        if all < self.known.plus {
            return false;
        }
        let root = Node {
            need,
            room,
            left: k,
            spare: all - self.known.plus,
        };
        self.cover(root, area)
    }
}

// The first shortest list that covers `need` inside `room`, at the front of the area: how many boxes it has. The number is answered, as
// `Sought` says, and the list is not lent.
pub fn shortest(m: usize, need: u32, room: u32, area: &mut [u8]) -> usize
    requires { Askable m need room area.old }
    ensures { Sought m (has need) (has room) result area.new }
{
    let sets = sets::sets();
    let singles = sets::singles();
    let known = costs::weighed(m, sets, &singles, need, room);
    let search = Search {
        marks: m,
        sets,
        singles: &singles,
        known: &known,
    };
    for k in 0..=lists::most_lines(m) {
        if search.of_size(need, room, k, area) {
            return k;
        }
    }
    unreachable!()
}
