// The desk program. `main` of `months` differs in its type and its name alone, and takes neither as a parameter.
#![tactic(auto)]

use desk::Desk;
use std::process::ExitCode;

fn main(rt: HostRuntime) -> ExitCode {
    match console::run_until_used_up::<_, _, Desk>(&mut rt.stdin(), &mut rt.stdout()) {
        Ok(()) => ExitCode::SUCCESS,
        Err(e) => {
            let _ = eprintln!(rt; "holdings: {e}");
            ExitCode::FAILURE
        }
    }
}

#[cfg(test)]
mod tests {
    use desk::Desk;
    use std::test::Fail;
    use std::vec::Vec;

    // `console::run` over lists of bytes, with the desk, since `console` knows no program: an input that says `end`, and one that ends in a line without newline.
    #[test]
    fn runs_over_bytes(rt: HostRuntime) -> Result<(), Fail> {
        for (session, page) in [
            (
                "marks 1\nin 1\nrecv 1 1:30:00\nend\n",
                "class 1\nlines 1\n1 90:00\ntotal 90:00\n",
            ),
            (
                "marks 2\nin 01\nrecv 01 2:00",
                "refused 3 10\nclass 1\nlines 1\n01 0:00\ntotal 0:00\n",
            ),
        ] {
            let mut written = Vec::new(rt.alloc());
            console::run::<_, _, Desk>(&mut session.as_bytes(), &mut written)?;
            assert_eq!(rt; written.as_slice(), page.as_bytes());
        }
        Ok(())
    }
}
