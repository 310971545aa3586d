// Running times: `M:SS` in minutes, or `H:MM:SS` in hours. What is read is handed on to the part of the text behind it, each part with its own set
// of readable texts and with the same promise: the value and its form, or the part left unread, at whose front the fault lies.
#![tactic(auto)]

ghost use Rattle.std.specs.Prelude.{◌≡◌, ◌+◌, ◌-◌, ◌*◌, ◌≤◌, ◌∷◌, IfOk, IfErr, IfSome, IfNone};
ghost use Rattle.times.specs.Texts.{Readable};
ghost use Rattle.times.specs.Places.{ReadsAs};
ghost use Rattle.times.specs.Answers.{form_number, Answered};
ghost use Rattle.times.specs.Parts.{HandsOn, Reads, NoDigit, Follows, Led, Paired, Ended, After, Two, ByParts, place_of};
ghost use Rattle.times.specs.declared.Form.TheVariants.{Hours};

// The form in which a running time is written.
#[derive(Clone, Copy, Debug, PartialEq, Eq)]
pub enum Form {
    Minutes,
    Hours,
}

// The seconds and their form, or the place: the length of the longest beginning that is also the beginning of some readable text.
// It stays an enum of its own, since `ReadsAs` and the theorems over it (`read_settled`, `time_decided`) speak of these two cases.
#[derive(Clone, Copy, Debug, PartialEq, Eq)]
pub enum Time {
    Value(u64, Form),
    Fault(usize),
}

impl Time {
    // The place of a fault, 0 for a value.
    fn place(self) -> usize
        ensures { result ≡ place_of self }
    {
        match self {
            Time::Value(_, _) => 0,
            Time::Fault(p) => p,
        }
    }
}

// The reply to a text, for C too: 0 with the value and the number of its form, or 10 with the place. Four numbers, as `vault_read_time` hands them to C.
#[repr(C)]
#[derive(Clone, Copy, Debug, PartialEq, Eq)]
pub struct Reading {
    pub answer: u64,
    pub place: u64,
    pub value: u64,
    pub form: u64,
}

// A digit up to top, and what stands behind it; or the part, in front of which none stands.
fn digit(part: &[u8], top: u8) -> Result<(u64, &[u8]), &[u8]>
    ensures goes_on { IfOk result (λ r. (part.now ≡ (48 + r.0) ∷ r.1.now) × (48 + r.0 ≤ top)) }
    ensures stops { IfErr result (λ rest. (rest.now ≡ part.now) × NoDigit top part.now) }
{
    match part {
        [c, behind @ ..] if b'0' <= *c && *c <= top => Ok((u64::from(*c - b'0'), behind)),
        _ => Err(part),
    }
}

// The number that i digits, which write n, and the digit c make; None where c may not follow them. The bound on n stands wherever n is handed on: a type for
// it would be built anew at each digit and opened for each sum.
fn grown(i: usize, n: u64, c: u8) -> Option<u64>
    requires { n ≤ 599 }
    ensures follows { IfSome result (λ more. Follows i n c × (more ≡ n * 10 + (c - 48))) }
    ensures stops { IfNone result (Follows i n c → ⊥) }
{
    if c < b'0' || b'9' < c {
        return None;
    }
    if 0 < i && n == 0 {
        return None;
    }
    let more = n * 10 + u64::from(c - b'0');
    if 599 < more {
        return None;
    }
    Some(more)
}

// The number in front of the colon, and what stands behind the colon.
fn before_colon(text: &[u8]) -> Result<(u64, &[u8]), &[u8]>
    ensures { HandsOn Led text.now result }
{
    let mut n: u64 = 0;
    for (i, c) in text.iter().enumerate() {
        if *c == b':' && 0 < i {
            return Ok((n, &text[i + 1..]));
        }
        let Some(more) = grown(i, n, *c) else {
            return Err(&text[i..]);
        };
        n = more;
    }
    Err(&text[text.len()..])
}

// The two digits, 00 to 59, that the part begins with, and what stands behind them.
fn two_digits(part: &[u8]) -> Result<(u64, &[u8]), &[u8]>
    ensures { HandsOn Paired part.now result }
{
    let (tens, behind) = digit(part, b'5')?;
    let (ones, end) = digit(behind, b'9')?;
    Ok((tens * 10 + ones, end))
}

// What stands behind `H:MM:`, which make n minutes: two digits of seconds, and nothing behind them. The parts behind the colon are told part and number
// side by side: a struct of the two would be made for each and opened in each.
fn seconds(part: &[u8], n: u64) -> Result<(u64, Form), &[u8]>
    requires { n ≤ 599 }
    ensures { Reads (Two (Ended Hours n)) part.now result }
{
    let (x, end) = two_digits(part)?;
    if !end.is_empty() {
        return Err(end);
    }
    Ok((n * 60 + x, Form::Hours))
}

// What stands behind `N:XX`: nothing, if these are minutes and seconds; or a colon and the seconds, if N can be hours.
fn after(part: &[u8], n: u64, x: u64) -> Result<(u64, Form), &[u8]>
    requires { (n ≤ 599) × (x ≤ 59) }
    ensures { Reads (After n x) part.now result }
{
    let [c, behind @ ..] = part else {
        return Ok((n * 60 + x, Form::Minutes));
    };
    if *c != b':' || n < 1 || 9 < n {
        return Err(part);
    }
    seconds(behind, n * 60 + x)
}

// What stands behind `N:`: two digits, and what may follow them.
fn behind_colon(part: &[u8], n: u64) -> Result<(u64, Form), &[u8]>
    requires { n ≤ 599 }
    ensures { Reads (Two (After n)) part.now result }
{
    let (x, behind) = two_digits(part)?;
    after(behind, n, x)
}

// Reads any text part by part.
fn by_parts(text: &[u8]) -> Result<(u64, Form), &[u8]>
    ensures { Reads ByParts text.now result }
{
    let (n, behind) = before_colon(text)?;
    behind_colon(behind, n)
}

// Reads any text.
pub fn read(text: &[u8]) -> Time
    ensures { ReadsAs Readable text.now result }
{
    match by_parts(text) {
        Ok((value, form)) => Time::Value(value, form),
        Err(rest) => Time::Fault(text.len() - rest.len()),
    }
}

// The number of a form, as `vault_read_time` hands it to C: 0 for none, 1 for minutes, 2 for hours.
fn form_number(f: Option<Form>) -> u64
    ensures { result ≡ form_number f }
{
    match f {
        None => 0,
        Some(Form::Minutes) => 1,
        Some(Form::Hours) => 2,
    }
}

// The reply to any text, in the numbers that `vault_read_time` hands to C: 10 is that of `Unreadable` in 01's table.
pub fn answer(text: &[u8]) -> Reading
    ensures { Answered text.now result }
{
    let time = read(text);
    let Time::Value(value, form) = time else {
        return Reading {
            answer: 10,
            place: time.place() as u64,
            value: 0,
            form: form_number(None),
        };
    };
    Reading {
        answer: 0,
        place: 0,
        value,
        form: form_number(Some(form)),
    }
}
