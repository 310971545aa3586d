// Runs the known sheets, times and amounts of 01 that are not shown of the definitions, and the lists and times of 02, and prints what the library
// answers; the file `stdout` has what is to come. 000's first function is there with its own six lines beside ours.
#![tactic(auto)]

use refusals::Refusal;
use sheet::{Refused, Sheet};
use std::io;

const ONE_TO_SIX: [u8; 6] = [1, 2, 3, 4, 5, 6];

const ONE_TO_THREE: [u8; 3] = [1, 2, 3];

const ALL: [u8; 32] = [
    0, 1, 2, 3, 4, 5, 6, 7, 8, 9, 10, 11, 12, 13, 14, 15, 16, 17, 18, 19, 20, 21, 22, 23, 24, 25,
    26, 27, 28, 29, 30, 31,
];

// 000's first function, and its own lines (intervals 17, 36, 37, 23, 24 and 15 there) in list order.
const FUNCTION: [u8; 15] = [5, 6, 7, 10, 11, 12, 13, 18, 19, 22, 23, 26, 27, 28, 30];

const ITS_LINES: [u8; 6] = [64, 176, 194, 198, 86, 120];

// Why the run ends early: a call that must be done is refused, or nothing more can be printed.
#[derive(Drop)]
enum Ended {
    Call(Refusal),
    Output(io::Error),
}

impl From<Refusal> for Ended {
    fn from(refusal: Refusal) -> Ended {
        Ended::Call(refusal)
    }
}

impl From<Refused> for Ended {
    fn from(refused: Refused) -> Ended {
        Ended::Call(refused.refusal)
    }
}

impl From<io::Error> for Ended {
    fn from(e: io::Error) -> Ended {
        Ended::Output(e)
    }
}

fn print_numbers(rt: &impl Print, list: &[u8]) -> io::Result<()> {
    for b in list {
        print!(rt; " {b}")?;
    }
    Ok(())
}

// The sheet of m marks with these combinations in its class.
fn with_class(m: usize, class: &[u8]) -> Result<Sheet, Refusal> {
    let mut sheet = Sheet::open(m)?;
    for c in class {
        changes::enter(&mut sheet, usize::from(*c))?;
    }
    Ok(sheet)
}

// A list, and what the check finds of it.
fn print_list(rt: &impl Print, sheet: &Sheet, list: &[u8]) -> io::Result<()> {
    print_numbers(rt, list)?;
    match checking::check(sheet, list) {
        Ok(None) => println!(rt; " fits"),
        Ok(Some((fault, at))) => println!(rt; " fault {} at {at}", fault.number()),
        Err(refusal) => println!(rt; " refused {}", refusal.number()),
    }
}

// The list of a known sheet.
fn known_sheet(rt: &impl Print, m: usize, class: &[u8]) -> Result<(), Ended> {
    let sheet = with_class(m, class)?;
    let mut area = listing::area();
    let n = listing::list(&sheet, &mut area)?;
    print!(rt; "list")?;
    if let Some(list) = area.get(..n as usize) {
        print_list(rt, &sheet, list)?;
    }
    Ok(())
}

// 000's own lines, and which of the two lists is before the other.
fn document(rt: &impl Print) -> Result<(), Ended> {
    let sheet = with_class(5, &FUNCTION)?;
    print!(rt; "000")?;
    print_list(rt, &sheet, &ITS_LINES)?;
    let mut area = listing::area();
    let n = listing::list(&sheet, &mut area)?;
    if let Some(list) = area.get(..n as usize) {
        print!(rt; "before")?;
        print_numbers(rt, lists::before(&ITS_LINES, list))?;
        println!(rt;)?;
    }
    Ok(())
}

// Lists that others drew for the class of 1 to 3 over two marks.
fn lists_that_others_drew(rt: &impl Print) -> Result<(), Ended> {
    let sheet = with_class(2, &ONE_TO_THREE)?;
    let drawn: [&[u8]; 9] = [
        b"\x01\x05",
        b"\x05\x01",
        b"\x04\x01\x03",
        b"\x05\x05\x09",
        b"\x08\x00\x01",
        b"\x00\x01\x01",
        b"\x05\x00",
        b"\x01",
        b"",
    ];
    for list in drawn {
        print!(rt; "drawn")?;
        print_list(rt, &sheet, list)?;
    }
    Ok(())
}

fn print_bytes(rt: &impl Print, bytes: &[u8]) -> io::Result<()> {
    for byte in bytes {
        print!(rt; " {byte:02x}")?;
    }
    println!(rt;)
}

// The sheet of the desk program's sample.
fn sample() -> Result<Sheet, Refusal> {
    let mut sheet = with_class(2, &ONE_TO_THREE)?;
    changes::receive(&mut sheet, 3, 605)?;
    changes::receive(&mut sheet, 1, 150)?;
    changes::withdraw(&mut sheet, 3, 5)?;
    changes::receive(&mut sheet, 0, 240)?;
    Ok(sheet)
}

// The sample's stored bytes, and those of the sheet that is read from them.
fn stored(rt: &impl Print) -> Result<(), Ended> {
    let mut area = [0u8; 64];
    let n = writing::write(&sample()?, &mut area)?;
    if let Some(form) = area.get(..n as usize) {
        print!(rt; "stored")?;
        print_bytes(rt, form)?;
        let sheet = reading::read(form)?;
        let mut again = [0u8; 64];
        let k = writing::write(&sheet, &mut again)?;
        if let Some(form) = again.get(..k as usize) {
            print!(rt; "read back 0")?;
            print_bytes(rt, form)?;
        }
    }
    Ok(())
}

// Texts: the answer, the place, the value and the form of each.
fn times_of_both_forms(rt: &impl Print) -> io::Result<()> {
    let texts = [
        "012:30", "1:30", "9:59:59", "10:00:00", "0:00:00", "1:30:", "1:30:6", "1:60:00", "1:3",
        "1:00:000",
    ];
    for text in texts {
        let r = times::answer(text.as_bytes());
        println!(rt;
            "time {text} {} {} {} {}",
            r.answer, r.place, r.value, r.form
        )?;
    }
    Ok(())
}

// The number of a call's answer: 0 when done.
fn number(answer: Result<(), Refusal>) -> u64 {
    answer.err().map_or(0, |refusal| refusal.number())
}

fn amounts(rt: &impl Print) -> Result<(), Ended> {
    for d in [0, 1, 35_999, 36_000] {
        let mut sheet = Sheet::open(1)?;
        let answer = changes::receive(&mut sheet, 1, d);
        println!(rt; "amount {d} {}", number(answer))?;
    }
    Ok(())
}

// Receipts that end at 4,000,000,000 seconds, and one second more.
fn limit(rt: &impl Print) -> Result<(), Ended> {
    let mut sheet = Sheet::open(1)?;
    for _ in 0..111_114 {
        changes::receive(&mut sheet, 1, 35_999)?;
    }
    let last = changes::receive(&mut sheet, 1, 7_114);
    println!(rt; "held 4000000000 {}", number(last))?;
    let more = changes::receive(&mut sheet, 1, 1);
    println!(rt; "held 4000000001 {}", number(more))?;
    Ok(())
}

// What is to be printed, or why it ends early.
fn printed(rt: &impl Print) -> Result<(), Ended> {
    known_sheet(rt, 3, &ONE_TO_SIX)?;
    known_sheet(rt, 5, &ALL)?;
    known_sheet(rt, 5, &FUNCTION)?;
    document(rt)?;
    lists_that_others_drew(rt)?;
    stored(rt)?;
    times_of_both_forms(rt)?;
    amounts(rt)?;
    limit(rt)
}

fn main(rt: HostRuntime) -> io::Result<()> {
    match printed(&rt) {
        Ok(()) => Ok(()),
        Err(Ended::Output(e)) => Err(e),
        Err(Ended::Call(_)) => Err(io::Error::from(io::ErrorKind::Other)),
    }
}
