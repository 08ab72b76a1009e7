ghost use Rattle.std.specs.Prelude.{◌≡◌, ◌+◌, ◌-◌, ◌*◌, ◌<◌, ◌≤◌, ◌∷◌, [], length, get_or, drop, codes, IfOk, OnOk, IsTrue, ◌↔◌, nat_le};
ghost use Rattle.text_lines.specs.Lines.{lines_of};
ghost use Rattle.text_lines.specs.Fields.{fields_of};
ghost use Rattle.text_lines.specs.Faults.{at, Gives};
ghost use Rattle.map_text.specs.MapGrammar.{line_at, header, size_of, fits_height, fits_width, sizes_of, fault_of};

use crate::fault::{MapFault, MapKind, fault};
use text_lines::{NumberFault, next_line, only_field, read_number, two_fields};

const MAX_SIDE: u32 = 2048;

const MAX_CELLS: u32 = 1_048_576;

// The next line, or an empty one where there is none, and the text after it.
fn line_or_empty(text: &[u8]) -> (&[u8], &[u8])
    ensures line { result.0.now ≡ get_or (lines_of text.now) 0 [] }
    ensures rest { lines_of result.1.now ≡ drop 1 (lines_of text.now) }
    ensures parts { length result.0.now + length result.1.now ≤ length text.now }
{
    match next_line(text) {
        Some(found) => found,
        None => (&[], text),
    }
}

fn is_title(line: &[u8]) -> bool
    ensures words { IsTrue result ↔ (fields_of line.now ≡ codes "type" ∷ codes "octile" ∷ []) }
    ensures filled { IsTrue result → 0 < length line.now }
{
    match two_fields(line) {
        Some((first, second)) => first == b"type".as_slice() && second == b"octile".as_slice(),
        None => false,
    }
}

fn is_map_word(line: &[u8]) -> bool
    ensures word { IsTrue result ↔ (fields_of line.now ≡ codes "map" ∷ []) }
    ensures filled { IsTrue result → 0 < length line.now }
{
    match only_field(line) {
        Some(word) => word == b"map".as_slice(),
        None => false,
    }
}

fn check_title(line: &[u8]) -> Result<(), MapFault>
    ensures header { Gives fault_of (λ x. x) result
        (at 1 (header (codes "type" ∷ codes "octile" ∷ []) (fields_of line.now))) }
    ensures filled { OnOk result (0 < length line.now) }
{
    if is_title(line) {
        Ok(())
    } else {
        fault(1, MapKind::BadHeader)
    }
}

fn check_map_word(line: &[u8]) -> Result<(), MapFault>
    ensures header { Gives fault_of (λ x. x) result
        (at 4 (header (codes "map" ∷ []) (fields_of line.now))) }
    ensures filled { OnOk result (0 < length line.now) }
{
    if is_map_word(line) {
        Ok(())
    } else {
        fault(4, MapKind::BadHeader)
    }
}

// A word, and a size from 1 to the limit.
fn read_size(line: &[u8], number: u32, word: &[u8], limit: u32) -> Result<u32, MapFault>
    ensures size { Gives fault_of (λ x. x) result
        (at number (size_of word.now (λ n. nat_le n limit) (fields_of line.now))) }
    ensures fits { IfOk result (λ n. (1 ≤ n) × (n ≤ limit)) }
    ensures filled { OnOk result (0 < length line.now) }
{
    let Some((first, second)) = two_fields(line) else {
        return fault(number, MapKind::BadHeader);
    };
    if first != word {
        return fault(number, MapKind::BadHeader);
    }
    match read_number(second, u64::from(limit)) {
        Ok(0) => fault(number, MapKind::BadNumber),
        Ok(size) => Ok(size as u32),
        Err(NumberFault::NoNumber) => fault(number, MapKind::BadNumber),
        Err(NumberFault::TooGreat) => fault(number, MapKind::TooLarge),
    }
}

fn read_height(line: &[u8]) -> Result<u32, MapFault>
    ensures size { Gives fault_of (λ x. x) result
        (at 2 (size_of (codes "height") fits_height (fields_of line.now))) }
    ensures fits { IfOk result (λ n. (1 ≤ n) × (n ≤ 2048)) }
    ensures filled { OnOk result (0 < length line.now) }
{
    read_size(line, 2, b"height", MAX_SIDE)
}

fn read_width(line: &[u8], height: u32) -> Result<u32, MapFault>
    requires { 1 ≤ height }
    ensures size { Gives fault_of (λ x. x) result
        (at 3 (size_of (codes "width") (fits_width height) (fields_of line.now))) }
    ensures fits { IfOk result (λ n. (1 ≤ n) × (n ≤ 2048) × (n * height ≤ 1048576)) }
    ensures filled { OnOk result (0 < length line.now) }
{
    read_size(line, 3, b"width", (MAX_CELLS / height).min(MAX_SIDE))
}

// The four lines of a header, and the text after them.
#[derive(Drop)]
struct HeaderLines<'a> {
    title: &'a [u8],
    height: &'a [u8],
    width: &'a [u8],
    mark: &'a [u8],
    rest: &'a [u8],
}

fn header_lines(text: &[u8]) -> HeaderLines<'_>
    ensures title { result.title.now ≡ line_at (lines_of text.now) 1 }
    ensures height { result.height.now ≡ line_at (lines_of text.now) 2 }
    ensures width { result.width.now ≡ line_at (lines_of text.now) 3 }
    ensures mark { result.mark.now ≡ line_at (lines_of text.now) 4 }
    ensures rest { lines_of result.rest.now ≡ drop 4 (lines_of text.now) }
    ensures parts { length result.title.now + length result.height.now + length result.width.now
        + length result.mark.now + length result.rest.now ≤ length text.now }
{
    let (title, rest) = line_or_empty(text);
    let (height, rest) = line_or_empty(rest);
    let (width, rest) = line_or_empty(rest);
    let (mark, rest) = line_or_empty(rest);
    HeaderLines {
        title,
        height,
        width,
        mark,
        rest,
    }
}

/// What the header of a map says, and the text after it.
#[derive(Clone, Copy)]
pub struct Header<'a> {
    pub width: u32,
    pub height: u32,
    pub rest: &'a [u8],
}

/// Reads the first four lines of a map.
#[tactic(auto, unfolding(crate::specs::MapGrammar::sizes_of))]
pub fn read_header(text: &[u8]) -> Result<Header<'_>, MapFault>
    ensures sizes { Gives fault_of (λ h. record { width = h.width; height = h.height }) result
        (sizes_of (lines_of text.now)) }
    ensures rest { IfOk result (λ h. lines_of h.rest.now ≡ drop 4 (lines_of text.now)) }
    ensures wide { IfOk result (λ h. (1 ≤ h.width) × (h.width ≤ 2048)) }
    ensures high { IfOk result (λ h. (1 ≤ h.height) × (h.height ≤ 2048)) }
    ensures area { IfOk result (λ h. h.width * h.height ≤ 1048576) }
    ensures read { IfOk result (λ h. 4 + length h.rest.now ≤ length text.now) }
{
    let lines = header_lines(text);
    check_title(lines.title)?;
    let height = read_height(lines.height)?;
    let width = read_width(lines.width, height)?;
    check_map_word(lines.mark)?;
    Ok(Header {
        width,
        height,
        rest: lines.rest,
    })
}
