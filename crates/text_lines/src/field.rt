ghost use Rattle.std.specs.Prelude.{◌≡◌, ◌≢◌, ◌<◌, ◌∷◌, [], length, MatchOption, IfSome, OnSome, position};
ghost use Rattle.std.proofs.Common.{not};
ghost use Rattle.text_lines.specs.Fields.{is_blank, fields_of};

fn is_blank_byte(byte: u8) -> bool
    ensures { result ≡ is_blank byte }
{
    byte == b' ' || byte == b'\t'
}

fn first_blank(line: &[u8]) -> Option<usize>
    ensures { result ≡ position is_blank line.now }
{
    line.iter().position(|b| is_blank_byte(*b))
}

fn first_filled(line: &[u8]) -> Option<usize>
    ensures { result ≡ position (λ b. not (is_blank b)) line.now }
{
    line.iter().position(|b| !is_blank_byte(*b))
}

/// The first field of a line, and what follows it.
pub fn next_field(line: &[u8]) -> Option<(&[u8], &[u8])>
    ensures field { MatchOption result
        (fields_of line.now ≡ [])
        (λ x. fields_of line.now ≡ x.0.now ∷ fields_of x.1.now) }
    ensures shorter { IfSome result (λ x. length x.1.now < length line.now) }
{
    let start = first_filled(line)?;
    let rest = &line[start..];
    match first_blank(rest) {
        Some(end) => Some((&rest[..end], &rest[end + 1..])),
        None => Some((rest, &[])),
    }
}

/// The field of a line that has one and no more.
pub fn only_field(line: &[u8]) -> Option<&[u8]>
    ensures field { MatchOption result
        (length (fields_of line.now) ≢ 1)
        (λ word. fields_of line.now ≡ word.now ∷ []) }
    ensures filled { OnSome result (0 < length line.now) }
{
    let (word, rest) = next_field(line)?;
    match next_field(rest) {
        None => Some(word),
        Some(_) => None,
    }
}

/// The fields of a line that has two and no more.
pub fn two_fields(line: &[u8]) -> Option<(&[u8], &[u8])>
    ensures fields { MatchOption result
        (length (fields_of line.now) ≢ 2)
        (λ x. fields_of line.now ≡ x.0.now ∷ x.1.now ∷ []) }
    ensures filled { OnSome result (0 < length line.now) }
{
    let (first, rest) = next_field(line)?;
    let second = only_field(rest)?;
    Some((first, second))
}
