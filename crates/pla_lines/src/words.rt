// The words of the line at the front of some bytes: spaces and tabs stand between them, and a newline or `#` ends them all.
ghost use Rattle.std.specs.Prelude.{◌≡◌, not, ◌||◌, [], ◌∷◌, position, MatchOption};
ghost use Rattle.pla.specs.Texts.{is_gap};
ghost use Rattle.pla_lines.specs.Lines.{is_stop, words_in};

fn is_gap(b: u8) -> bool
    ensures { result ≡ is_gap b }
{
    b == b' ' || b == b'\t'
}

fn is_stop(b: u8) -> bool
    ensures { result ≡ is_stop b }
{
    b == b'\n' || b == b'#'
}

// Where the first byte stands that is no gap.
fn gap_end(text: &[u8]) -> Option<usize>
    ensures { result ≡ position (λ b. not (is_gap b)) text.now }
{
    text.iter().position(|b| !is_gap(*b))
}

// Where the first byte stands that is of no word.
fn word_end(text: &[u8]) -> Option<usize>
    ensures { result ≡ position (λ b. is_gap b || is_stop b) text.now }
{
    text.iter().position(|b| is_gap(*b) || is_stop(*b))
}

// The first word of the line, and what stands behind it; None where the line has no more words.
pub fn next(text: &[u8]) -> Option<(&[u8], &[u8])>
    ensures { MatchOption result (words_in text.now ≡ []) (λ w. words_in text.now ≡ w.0.now ∷ words_in w.1.now) }
{
    let gap = gap_end(text)?;
    let begun = &text[gap..];
    let size = word_end(begun).unwrap_or(begun.len());
    if size == 0 {
        return None;
    }
    Some(begun.split_at(size))
}
