// The search for a C program, by itself: what bench/ times.
#![tactic(auto)]

ghost use Rattle.seek_c.specs.Told.{Told};

// The first shortest list that covers `need` inside `room`, at the front of the area: the number of its boxes, and 1. 0 where marks are
// above 5, where the area has room for fewer boxes than a list can have, and where `need` has a combination not below 2^marks or one that has no room.
// The C interface has a number alone, so that 0 refuses.
#[unsafe(no_mangle)]
pub extern "C" fn seek_shortest(marks: usize, need: u32, room: u32, area: &mut [u8]) -> usize
    ensures { Told marks need room result area.old area.new }
{
    if 5 < marks {
        return 0;
    }
    if area.len() < lists::most_lines(marks) {
        return 0;
    }
    let n = boxes::power2(marks);
    let wide = need as u64;
    if wide >> n != 0 {
        return 0;
    }
    if need & room != need {
        return 0;
    }
    seek::shortest(marks, need, room, area) + 1
}
