ghost use Rattle.std.specs.Prelude.{◌≡◌, ◌+◌, ◌-◌, ◌<◌, ◌≤◌, ◌^◌, ◌∷◌, [], length, position, MatchOption, IfSome};
ghost use Rattle.std.specs.List.{suffix_len};
ghost use Rattle.text_lines.specs.Lines.{is_line_feed, is_dropped, trimmed, lines_of};
ghost use Rattle.text_lines.specs.Fields.{fields_of};
ghost use Rattle.text_lines.specs.Numbered.{numbered_from};

fn is_dropped_byte(byte: u8) -> bool
    ensures { result ≡ is_dropped byte }
{
    byte == b' ' || byte == b'\t' || byte == b'\r'
}

// How many bytes are dropped at the end of a line.
fn dropped_at_end(line: &[u8]) -> usize
    ensures { result ≡ suffix_len is_dropped line.now }
{
    let mut end = line.len();
    while end > 0 && is_dropped_byte(line[end - 1]) {
        end -= 1;
    }
    line.len() - end
}

fn trimmed(line: &[u8]) -> &[u8]
    ensures { result.now ≡ trimmed line.now }
{
    &line[..line.len() - dropped_at_end(line)]
}

fn first_line_feed(text: &[u8]) -> Option<usize>
    ensures { result ≡ position is_line_feed text.now }
{
    text.iter().position(|b| *b == b'\n')
}

/// The first line of a text, without the blanks and carriage returns at its end, and the text
/// after it.
pub fn next_line(text: &[u8]) -> Option<(&[u8], &[u8])>
    ensures line { MatchOption result
        (lines_of text.now ≡ [])
        (λ x. lines_of text.now ≡ x.0.now ∷ lines_of x.1.now) }
    ensures shorter { IfSome result (λ x. length x.1.now < length text.now) }
    ensures parts { IfSome result (λ x. length x.0.now + length x.1.now ≤ length text.now) }
{
    if text.is_empty() {
        return None;
    }
    match first_line_feed(text) {
        Some(end) => Some((trimmed(&text[..end]), &text[end + 1..])),
        None => Some((trimmed(text), &[])),
    }
}

/// A line that isn't empty, and the text after it.
#[derive(Clone, Copy, Debug)]
pub struct FilledLine<'a> {
    /// The number of the line, from 1.
    pub number: u32,
    pub line: &'a [u8],
    pub rest: &'a [u8],
}

/// The next line that isn't empty; `before` is the number of the last line that was read, or 0.
pub fn next_filled_line(before: u32, text: &[u8]) -> Option<FilledLine<'_>>
    requires { before + length text.now < 2 ^ 32 }
    ensures line { MatchOption result
        (numbered_from (before + 1) (lines_of text.now) ≡ [])
        (λ x. numbered_from (before + 1) (lines_of text.now)
        ≡ record { line = x.number; fields = fields_of x.line.now }
        ∷ numbered_from (x.number + 1) (lines_of x.rest.now)) }
    ensures shorter { IfSome result (λ x. length x.rest.now < length text.now) }
    ensures room { IfSome result (λ x. x.number + length x.rest.now ≤ before + length text.now) }
{
    let mut number = before;
    let mut rest = text;
    while let Some((line, after)) = next_line(rest) {
        number += 1;
        rest = after;
        if !line.is_empty() {
            return Some(FilledLine { number, line, rest });
        }
    }
    None
}

/// How many lines a text has, empty ones included.
pub fn count_lines(text: &[u8]) -> usize
    ensures count { result ≡ length (lines_of text.now) }
    ensures few { result ≤ length text.now }
{
    let mut count = 0;
    let mut rest = text;
    while let Some((_, after)) = next_line(rest) {
        count += 1;
        rest = after;
    }
    count
}
