// A program at its input and output: feeds a session with what is read, and writes at once what it says. What it writes is the output of what it reads.
#![tactic(auto)]

ghost use Rattle.std.specs.Prelude.{◌≡◌, ◌+◌, ◌≤◌, ◌<◌, ◌^◌, ◌⊎◌, length, IfOk, IfErr, OnOk};
ghost use Rattle.std.specs.Io.KnownBytes.{Appends};
ghost use Rattle.machine.specs.Pieces.{Position};
ghost use Rattle.sessions.specs.Sessions.{At, Stands};
ghost use Rattle.console.specs.Serves.{Fetched, Served, Closed, Serves, UsedUp};

use machine::Program;
use sessions::{ROOM, Session};
use std::io::{Read, Write};
use thiserror::Error;

// Why a program ended before its input did. Of a text that could not be written a part may have been.
#[derive(Debug, Drop, Error)]
pub enum Failed {
    #[error("the input cannot be read")]
    Input,
    #[error("the output cannot be written")]
    Output,
}

// How often a program reads. A proved loop has to end, and nothing says that the input does: no run uses up this number.
pub const READS: u64 = 1_000_000_000_000_000;

// Reads the next piece; where that fails the program ends by it.
fn fetch<R: Read>(input: &mut R, piece: &mut [u8]) -> Result<usize, Failed>
    ensures within { IfOk result (λ n. n ≤ length piece.new) }
    ensures read { IfOk result (λ n. Fetched n piece.new (R.remaining input.old) (R.remaining input.new)) }
    ensures failed { IfErr result (λ e. e ≡ Failed.Input) }
{
    input.read(piece).map_err(|_| Failed::Input)
}

// Writes a text; where that fails the program ends by it, so that no result is lost in silence.
fn send<W: Write>(output: &mut W, text: &[u8]) -> Result<(), Failed>
    ensures wrote { OnOk result (Appends (W.contents output.old) (W.contents output.new) text.now) }
    ensures failed { IfErr result (λ e. e ≡ Failed.Output) }
{
    output.write_all(text).map_err(|_| Failed::Output)
}

// One piece of input: what a line says is written before the next line is looked at. Behind the line with which the program is over nothing is.
fn serve<W: Write, P: Program>(
    session: &mut Session<P>,
    piece: &[u8],
    output: &mut W,
) -> Result<(), Failed>
    requires stands { Stands P.kind session.old }
    requires piece_bound { session.old.line.number + length piece.now < 2 ^ 63 }
    ensures served { OnOk result ((p : Position P.kind.machine) → At P.kind session.old p → Served P.kind p piece.now session.new (W.contents output.old) (W.contents output.new)) }
    ensures failed { IfErr result (λ e. e ≡ Failed.Output) }
{
    let mut out = [0u8; ROOM];
    let mut rest = piece;
    while !rest.is_empty() {
        let fed = session.feed(rest, &mut out);
        send(output, &out[..fed.wrote])?;
        let (_, behind) = rest.split_at(fed.used);
        rest = behind;
        if session.is_over() {
            return Ok(());
        }
    }
    Ok(())
}

// The input is at its end.
fn close<W: Write, P: Program>(session: Session<P>, output: &mut W) -> Result<(), Failed>
    requires stands { Stands P.kind session }
    requires number_bound { session.line.number + 1 < 2 ^ 63 }
    ensures closed { OnOk result ((p : Position P.kind.machine) → At P.kind session p → Closed P.kind p (W.contents output.old) (W.contents output.new)) }
    ensures failed { IfErr result (λ e. e ≡ Failed.Output) }
{
    let mut out = [0u8; ROOM];
    let n = session.finish(&mut out);
    send(output, &out[..n])
}

// A program, from the first line to the end. An error of reading or writing ends it; so does the last of the reads, with which the input is given up.
pub fn run<R: Read, W: Write, P: Program>(input: &mut R, output: &mut W) -> Result<(), Failed>
    ensures { OnOk result (Serves P.kind (R.remaining input.old) (R.remaining input.new) (W.contents output.old) (W.contents output.new)) }
{
    P::laws();
    let mut session = Session::<P>::new();
    let mut piece = [0u8; 4096];
    for read in 0..READS {
        let n = fetch(input, &mut piece)?;
        if n == 0 {
            return close(session, output);
        }
        serve(&mut session, &piece[..n], output)?;
        if session.is_over() {
            return Ok(());
        }
    }
    Err(Failed::Input)
}

// As `run`, but the last of the reads ends it well, and nothing more is said behind it. `run` cannot call it, since its `Ok` does not tell the two cases apart.
pub fn run_until_used_up<R: Read, W: Write, P: Program>(
    input: &mut R,
    output: &mut W,
) -> Result<(), Failed>
    ensures { OnOk result
        (Serves P.kind (R.remaining input.old) (R.remaining input.new) (W.contents output.old) (W.contents output.new)
        ⊎ UsedUp P.kind READS (R.remaining input.old) (R.remaining input.new) (W.contents output.old) (W.contents output.new)) }
{
    P::laws();
    let mut session = Session::<P>::new();
    let mut piece = [0u8; 4096];
    for turn in 0..READS {
        let n = fetch(input, &mut piece)?;
        if n == 0 {
            return close(session, output);
        }
        serve(&mut session, &piece[..n], output)?;
        if session.is_over() {
            return Ok(());
        }
    }
    Ok(())
}
