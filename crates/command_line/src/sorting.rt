ghost use Rattle.std.specs.Prelude.{◌≡◌, List, ◌∷◌, map, string_bytes, None, false, IfOk, IsTrue, position};
ghost use Rattle.std.specs.Option.{option_map};
ghost use Rattle.command_line.specs.Sorting.{Word, kind_of, option_kind, begins_with_dash, is_equals, sorted_from};
ghost use Rattle.command_line.specs.SortingView.{kind_named, sorted_view, sorted_after};

use fleet_base::Memory;
use std::alloc::Global;

// How a word is read that stands before any `--`, where no option waits for its value.
#[derive(Clone, Copy)]
pub(crate) enum WordKind<N> {
    // `--`
    Ends,
    // `--NAME=VALUE`
    Gives(N, N),
    // `--NAME`
    Takes(N),
    Wrong,
    Plain,
}

// An option and its value.
#[derive(Clone, Copy)]
pub(crate) struct Given<'a> {
    pub name: &'a [u8],
    pub value: &'a [u8],
}

// The words after the command's name.
#[derive(Drop)]
pub(crate) struct SortedWords<'a> {
    pub plain: Vec<&'a str>,
    pub options: Vec<Given<'a>>,
}

// The words that were read so far. `waiting` is the name of an option whose value comes next.
#[derive(Drop)]
struct Sorting<'a> {
    plain: Vec<&'a str>,
    options: Vec<Given<'a>>,
    waiting: Option<&'a [u8]>,
    ended: bool,
}

fn first_equals(name: &[u8]) -> Option<usize>
    ensures { result ≡ position is_equals name.now }
{
    name.iter().position(|b| *b == b'=')
}

fn begins_with_dash(word: &[u8]) -> bool
    ensures { result ≡ begins_with_dash word.now }
{
    word.starts_with(b"-")
}

fn option_kind(name: &[u8]) -> WordKind<&[u8]>
    ensures { kind_named (λ n. n.now) result ≡ option_kind name.now (position is_equals name.now) }
{
    match first_equals(name) {
        Some(place) => WordKind::Gives(&name[..place], &name[place + 1..]),
        None => WordKind::Takes(name),
    }
}

#[tactic(auto, unfolding(crate::specs::Sorting::kind_of))]
fn kind_of(word: &[u8]) -> WordKind<&[u8]>
    ensures { kind_named (λ n. n.now) result ≡ kind_of word.now }
{
    if word == b"--".as_slice() {
        return WordKind::Ends;
    }
    if word.starts_with(b"--") {
        return option_kind(&word[2..]);
    }
    if word.len() > 1 && begins_with_dash(word) {
        return WordKind::Wrong;
    }
    WordKind::Plain
}

// Reads a word that is no value and stands before any `--`. False where the words are no command's.
fn read_free_word<'a>(sorting: &mut Sorting<'a>, text: &'a str) -> Result<bool, Memory>
    requires before { sorting.old.ended ≡ false }
    requires free { sorting.old.waiting ≡ None }
    ensures goes_on { IfOk result (λ good. IsTrue good → ((ws : List Word) →
        sorted_after sorting.old (text.now ∷ ws) ≡ sorted_after sorting.new ws)) }
    ensures stops { IfOk result (λ good. ¬ (IsTrue good) → ((ws : List Word) →
        sorted_after sorting.old (text.now ∷ ws) ≡ None)) }
{
    match kind_of(text.as_bytes()) {
        WordKind::Ends => sorting.ended = true,
        WordKind::Gives(name, value) => sorting.options.push(Given { name, value })?,
        WordKind::Takes(name) => sorting.waiting = Some(name),
        WordKind::Wrong => return Ok(false),
        WordKind::Plain => sorting.plain.push(text)?,
    }
    Ok(true)
}

// Reads one word more. False where the words are no command's.
fn read_word<'a>(sorting: &mut Sorting<'a>, text: &'a str) -> Result<bool, Memory>
    ensures goes_on { IfOk result (λ good. IsTrue good → ((ws : List Word) →
        sorted_after sorting.old (text.now ∷ ws) ≡ sorted_after sorting.new ws)) }
    ensures stops { IfOk result (λ good. ¬ (IsTrue good) → ((ws : List Word) →
        sorted_after sorting.old (text.now ∷ ws) ≡ None)) }
{
    if sorting.ended {
        sorting.plain.push(text)?;
        return Ok(true);
    }
    match sorting.waiting {
        None => read_free_word(sorting, text),
        Some(name) => {
            let value = text.as_bytes();
            if begins_with_dash(value) {
                return Ok(false);
            }
            sorting.options.push(Given { name, value })?;
            sorting.waiting = None;
            Ok(true)
        }
    }
}

// The later words of a line, from left to right; none where they are no command's.
pub(crate) fn sort_words<'a>(
    alloc: Global,
    words: &'a [String],
) -> Result<Option<SortedWords<'a>>, Memory>
    ensures { IfOk result (λ found. option_map sorted_view found ≡ sorted_from (map string_bytes words.now) None) }
{
    let mut sorting = Sorting {
        plain: Vec::new(alloc),
        options: Vec::new(alloc),
        waiting: None,
        ended: false,
    };
    for text in words {
        if !read_word(&mut sorting, text.as_str())? {
            return Ok(None);
        }
    }
    let Sorting {
        plain,
        options,
        waiting,
        ended: _,
    } = sorting;
    match waiting {
        Some(_) => Ok(None),
        None => Ok(Some(SortedWords { plain, options })),
    }
}
