ghost use Rattle.std.specs.Prelude.{◌≡◌, map, IfSome};
ghost use Rattle.std.specs.List.{list_any};
ghost use Rattle.std.specs.Str.{bytes_eq};
ghost use Rattle.command_line.specs.SortingView.{given};
ghost use Rattle.command_line.specs.Options.{number_in, need, option_in, are_among, most_workers, workers_or, horizon_of, take_of};
ghost use Rattle.command_line.specs.Ranges.{IsBetween};

use crate::sorting::Given;
use text_lines::read_number;

// How many workers there may be, and how many there are where nothing is said.
const MOST_WORKERS: u64 = 16;

pub(crate) const USUAL_WORKERS: u32 = 4;

// The number that the word is, where it is one of the range.
pub(crate) fn number_in(word: &[u8], low: u64, high: u64) -> Option<u64>
    ensures value { result ≡ number_in low high word.now }
    ensures range { IfSome result (IsBetween low high) }
{
    match read_number(word, high) {
        Ok(number) if number >= low => Some(number),
        _ => None,
    }
}

// The option of this name, which may be left out, and is given once at most.
fn option_in(options: &[Given<'_>], name: &[u8], low: u64, high: u64) -> Option<Option<u64>>
    ensures value { result ≡ option_in low high name.now (map given options.now) }
    ensures range { IfSome result (λ o. IfSome o (IsBetween low high)) }
{
    let mut found: Option<&[u8]> = None;
    for option in options {
        if option.name == name {
            if found.is_some() {
                return None;
            }
            found = Some(option.value);
        }
    }
    match found {
        None => Some(None),
        Some(value) => match number_in(value, low, high) {
            Some(number) => Some(Some(number)),
            None => None,
        },
    }
}

fn is_among(name: &[u8], names: &[&[u8]]) -> bool
    ensures { result ≡ list_any (bytes_eq name.now) (map (λ n. n.now) names.now) }
{
    for known in names {
        if name == *known {
            return true;
        }
    }
    false
}

// Whether each option has one of these names.
pub(crate) fn are_among(options: &[Given<'_>], names: &[&[u8]]) -> bool
    ensures { result ≡ are_among (map (λ n. n.now) names.now) (map given options.now) }
{
    for option in options {
        if !is_among(option.name, names) {
            return false;
        }
    }
    true
}

pub(crate) fn workers_or(default: u32, options: &[Given<'_>]) -> Option<u32>
    requires { IsBetween 1 most_workers default }
    ensures value { result ≡ workers_or default (map given options.now) }
    ensures range { IfSome result (IsBetween 1 most_workers) }
{
    match option_in(options, b"workers", 1, MOST_WORKERS)? {
        Some(workers) => Some(workers as u32),
        None => Some(default),
    }
}

pub(crate) fn horizon_of(options: &[Given<'_>]) -> Option<u32>
    ensures value { result ≡ horizon_of (map given options.now) }
    ensures range { IfSome result (IsBetween 1 8000) }
{
    match option_in(options, b"horizon", 1, 8000)? {
        Some(horizon) => Some(horizon as u32),
        None => Some(8000),
    }
}

pub(crate) fn take_of(options: &[Given<'_>]) -> Option<Option<u32>>
    ensures value { result ≡ take_of (map given options.now) }
    ensures range { IfSome result (λ t. IfSome t (IsBetween 1 32767)) }
{
    match option_in(options, b"take", 1, 32767)? {
        Some(rows) => Some(Some(rows as u32)),
        None => Some(None),
    }
}
