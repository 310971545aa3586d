// Does one job of the library so many times, to be counted and timed: bench/count writes the job's letter and the number, as `s1000`, to its standard
// input. Every other turn has another sheet, so that nothing can be worked out once for all turns. What they told is xored and printed.
#![tactic(auto)]

ghost use Rattle.std.specs.Prelude.{◌≤◌, length, IfOk};

use refusals::Refusal;
use sheet::Sheet;
use std::io;
use std::io::Read;

// The class of the sheets, a bit for each combination.
const CLASS: u32 = 0x90C2_35AF;

// How many of 32 boxes, each taken apart for its test, contain the combination that it is tested for.
fn tests(m: usize, k: u64) -> u64 {
    if 8 < m {
        return 0;
    }
    let b = (k % 211) as usize;
    (0..32).filter(|c| boxes::contains(m, b + *c, *c)).count() as u64
}

// How many of 32 combinations a box contains, taken apart once for all of them.
fn tests_apart(m: usize, k: u64) -> u64 {
    if 8 < m {
        return 0;
    }
    let d = boxes::digits_of(m, (k % 243) as usize);
    (0..32).filter(|c| boxes::agrees(d, *c)).count() as u64
}

// The answer, and a number of each table, so that no part of a sheet that a job made can be left out.
fn seen(answer: Result<(), Refusal>, sheet: &Sheet, k: u64) -> u64 {
    let b = (k % 243) as usize;
    answer.err().map_or(0, |refusal| refusal.number())
        ^ u64::from(sheet.outside[b])
        ^ u64::from(sheet.either[b])
        ^ u64::from(sheet.held[b])
}

// Reads a form, whose last seconds are others in each turn.
fn read(form: &mut [u8], k: u64) -> u64 {
    let n = form.len();
    if n < 4 {
        return 0;
    }
    form[n - 4] = (k % 256) as u8;
    match reading::read(form) {
        Ok(sheet) => seen(Ok(()), &sheet, k),
        Err(refused) => seen(Err(refused.refusal), &refused.sheet, k),
    }
}

// What a job tells. The jobs are tests of boxes; a form read, and written; a receipt, a withdrawal, into the class, out of it; the soundness test, the
// total, the check of a list. Any other letter is no job.
fn told(job: u8, mut sheet: Sheet, k: u64, form: &mut [u8], list: &[u8]) -> u64 {
    let c = (k % 32) as usize;
    match job {
        b't' => tests(sheet.marks, k),
        b'm' => tests_apart(sheet.marks, k),
        b'r' => read(form, k),
        b'w' => writing::write(&sheet, form).unwrap_or(0),
        b'a' => seen(changes::receive(&mut sheet, c, 10), &sheet, k),
        b'b' => seen(changes::withdraw(&mut sheet, c, 10), &sheet, k),
        b'i' => seen(changes::enter(&mut sheet, 4), &sheet, k),
        b'o' => seen(changes::leave(&mut sheet, 0), &sheet, k),
        b's' => u64::from(sheet.ready()),
        b'h' => totals::total(&sheet).unwrap_or(0),
        b'l' => match checking::check(&sheet, list) {
            Ok(None) => 0,
            Ok(Some((fault, _))) => fault.number(),
            Err(refusal) => refusal.number(),
        },
        _ => 0,
    }
}

// So many turns of a job.
fn turns(job: u8, n: u64, first: &Sheet, second: &Sheet, form: &mut [u8], list: &[u8]) -> u64 {
    let mut all = 0;
    for k in 0..n {
        let sheet = if k % 2 == 0 { first } else { second };
        all ^= told(job, *sheet, k, form, list);
    }
    all
}

// A sheet of five marks with that class, and so many seconds under each combination.
fn stocked(seconds: u64) -> Result<Sheet, Refusal> {
    let mut sheet = Sheet::open(5)?;
    for c in 0..32 {
        if (CLASS >> c) % 2 == 1 {
            changes::enter(&mut sheet, c)?;
        }
        changes::receive(&mut sheet, c, seconds)?;
    }
    Ok(sheet)
}

// The turns, on two sheets of one class: they have one list, and forms of one length.
fn run(job: u8, n: u64) -> Result<u64, Refusal> {
    let first = stocked(1000)?;
    let second = stocked(2000)?;
    let mut form = [0u8; 256];
    let mut area = listing::area();
    let size = writing::write(&first, &mut form)? as usize;
    let lines = listing::list(&first, &mut area)? as usize;
    match (form.get_mut(..size), area.get(..lines)) {
        (Some(form), Some(list)) => Ok(turns(job, n, &first, &second, form, list)),
        _ => Ok(0),
    }
}

// The number in decimal behind the letter: its last nine digits.
fn decimal(digits: &[u8]) -> u64 {
    let mut n = 0;
    for b in digits {
        if !b.is_ascii_digit() {
            return n;
        }
        n = (n * 10 + u64::from(*b - b'0')) % 1_000_000_000;
    }
    n
}

// Reads until the text is full or the input ends, and gives how many bytes came.
fn filled<R: Read>(input: &mut R, text: &mut [u8]) -> io::Result<usize>
    ensures { IfOk result (λ n. n ≤ length text.new) }
{
    let mut n = 0;
    // Each read says how far it came, so the place is not counted in steps of one.
    while n < text.len() {
        let got = input.read(&mut text[n..])?;
        if got == 0 {
            return Ok(n);
        }
        n += got;
    }
    Ok(n)
}

fn main(rt: HostRuntime) -> io::Result<()> {
    let mut text = [0u8; 4096];
    let n = filled(&mut rt.stdin(), &mut text)?;
    if let [job, digits @ ..] = &text[..n] {
        let told = run(*job, decimal(digits)).unwrap_or(0);
        println!(rt; "{told}")?;
    }
    Ok(())
}
