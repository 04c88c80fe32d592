// The words of a line: parted by spaces, up to a `#`, which begins a comment. Listings and scripts are read by these.
#![tactic(auto)]

ghost use Rattle.std.specs.Prelude.{◌≡◌};
ghost use Rattle.std.specs.Option.{option_map};
ghost use Rattle.std.specs.List.{slice_get};
ghost use Rattle.words.specs.Split.{code, words};

// The line up to its comment.
fn uncommented(line: &[u8]) -> &[u8]
    ensures { result.now ≡ code line.now }
{
    let end = line.iter().position(|b| *b == b'#').unwrap_or(line.len());
    &line[..end]
}

// The word at a place, counted from 0.
pub fn word(line: &[u8], place: usize) -> Option<&[u8]>
    ensures { option_map (λ x. x.now) result ≡ slice_get (words line.now) place }
{
    let code = uncommented(line);
    // spaces in front are passed over at once, and a line without a word ends here: parting it at each space takes longer
    let first = code.iter().position(|b| *b != b' ')?;
    code[first..]
        .split(|b| *b == b' ')
        .filter(|word| !word.is_empty())
        .nth(place)
}
