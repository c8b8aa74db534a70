// The words of a line, from its front.
ghost use Rattle.std.specs.Prelude.{◌≡◌};
ghost use Rattle.script.specs.Words.{blank, words_of, Splits};

fn is_blank(b: u8) -> bool
    ensures { result ≡ blank b }
{
    matches!(b, b' ' | b'\t')
}

// The first word, and what stands after it.
pub(crate) fn split_word(line: &[u8]) -> Option<(&[u8], &[u8])>
    ensures { Splits result (words_of line.now) }
{
    let start = line.iter().position(|b| !is_blank(*b))?;
    let rest = &line[start..];
    let end = rest.iter().position(|b| is_blank(*b)).unwrap_or(rest.len());
    Some(rest.split_at(end))
}
