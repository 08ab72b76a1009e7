ghost use Rattle.std.specs.Prelude.{◌≡◌, map, string_bytes, IfOk, IfSome};
ghost use Rattle.std.specs.Option.{option_map};
ghost use Rattle.command_line.specs.SortingView.{given};
ghost use Rattle.command_line.specs.Ranges.{IsInRange};
ghost use Rattle.command_line.specs.Words.{one_of, run_of, orders_of, gen_of, check_of, long_of, turns_of, command_by, command_of, named};

use crate::command::Command;
use crate::options::{USUAL_WORKERS, are_among, horizon_of, number_in, take_of, workers_or};
use crate::sorting::{Given, sort_words};
use fleet_base::Memory;
use std::alloc::Global;

#[tactic(auto, unfolding(crate::specs::Words::one_of))]
fn one_of<'a>(plain: &[&'a str], options: &[Given<'_>]) -> Option<Command<&'a str>>
    ensures command { option_map (named (λ n. n.now)) result ≡ one_of (map (λ w. w.now) plain.now) (map given options.now) }
    ensures ranges { IfSome result (λ c. IsInRange c) }
{
    let [map, from_x, from_y, to_x, to_y] = plain else {
        return None;
    };
    if !are_among(options, &[]) {
        return None;
    }
    let from_x = number_in(from_x.as_bytes(), 0, 2047)? as u32;
    let from_y = number_in(from_y.as_bytes(), 0, 2047)? as u32;
    let to_x = number_in(to_x.as_bytes(), 0, 2047)? as u32;
    let to_y = number_in(to_y.as_bytes(), 0, 2047)? as u32;
    Some(Command::One {
        map,
        from_x,
        from_y,
        to_x,
        to_y,
    })
}

#[tactic(auto, unfolding(crate::specs::Words::run_of))]
fn run_of<'a>(plain: &[&'a str], options: &[Given<'_>]) -> Option<Command<&'a str>>
    ensures command { option_map (named (λ n. n.now)) result ≡ run_of (map (λ w. w.now) plain.now) (map given options.now) }
    ensures ranges { IfSome result (λ c. IsInRange c) }
{
    let [map, scenario] = plain else {
        return None;
    };
    if !are_among(options, &[b"workers", b"horizon", b"take"]) {
        return None;
    }
    let workers = workers_or(USUAL_WORKERS, options)?;
    let horizon = horizon_of(options)?;
    let take = take_of(options)?;
    Some(Command::Run {
        map,
        scenario,
        workers,
        horizon,
        take,
    })
}

#[tactic(auto, unfolding(crate::specs::Words::orders_of))]
fn orders_of<'a>(plain: &[&'a str], options: &[Given<'_>]) -> Option<Command<&'a str>>
    ensures command { option_map (named (λ n. n.now)) result ≡ orders_of (map (λ w. w.now) plain.now) (map given options.now) }
    ensures ranges { IfSome result (λ c. IsInRange c) }
{
    let [map, orders] = plain else {
        return None;
    };
    if !are_among(options, &[b"workers", b"horizon"]) {
        return None;
    }
    let workers = workers_or(USUAL_WORKERS, options)?;
    let horizon = horizon_of(options)?;
    Some(Command::Orders {
        map,
        orders,
        workers,
        horizon,
    })
}

#[tactic(auto, unfolding(crate::specs::Words::gen_of))]
fn gen_of<'a>(plain: &[&'a str], options: &[Given<'_>]) -> Option<Command<&'a str>>
    ensures command { option_map (named (λ n. n.now)) result ≡ gen_of (map (λ w. w.now) plain.now) (map given options.now) }
    ensures ranges { IfSome result (λ c. IsInRange c) }
{
    let [width, height, percent, orders, start] = plain else {
        return None;
    };
    if !are_among(options, &[b"workers", b"horizon"]) {
        return None;
    }
    let width = number_in(width.as_bytes(), 1, 2048)? as u32;
    let height = number_in(height.as_bytes(), 1, 2048)? as u32;
    if width * height > 1048576 {
        return None;
    }
    let percent = number_in(percent.as_bytes(), 0, 100)? as u32;
    let orders = number_in(orders.as_bytes(), 1, 32767)? as u32;
    let start = number_in(start.as_bytes(), 0, u64::MAX)?;
    let workers = workers_or(1, options)?;
    let horizon = horizon_of(options)?;
    Some(Command::Gen {
        width,
        height,
        percent,
        orders,
        start,
        workers,
        horizon,
    })
}

#[tactic(auto, unfolding(crate::specs::Words::check_of))]
fn check_of<'a>(plain: &[&'a str], options: &[Given<'_>]) -> Option<Command<&'a str>>
    ensures command { option_map (named (λ n. n.now)) result ≡ check_of (map (λ w. w.now) plain.now) (map given options.now) }
    ensures ranges { IfSome result (λ c. IsInRange c) }
{
    let [map, orders, journal] = plain else {
        return None;
    };
    if !are_among(options, &[b"horizon"]) {
        return None;
    }
    let horizon = horizon_of(options)?;
    Some(Command::Check {
        map,
        orders,
        journal,
        horizon,
    })
}

#[tactic(auto, unfolding(crate::specs::Words::long_of))]
fn long_of<'a>(plain: &[&'a str], options: &[Given<'_>]) -> Option<Command<&'a str>>
    ensures command { option_map (named (λ n. n.now)) result ≡ long_of (map (λ w. w.now) plain.now) (map given options.now) }
    ensures ranges { IfSome result (λ c. IsInRange c) }
{
    let [map, orders] = plain else {
        return None;
    };
    if !are_among(options, &[b"horizon"]) {
        return None;
    }
    let horizon = horizon_of(options)?;
    Some(Command::Long {
        map,
        orders,
        horizon,
    })
}

#[tactic(auto, unfolding(crate::specs::Words::turns_of))]
fn turns_of<'a>(plain: &[&'a str], options: &[Given<'_>]) -> Option<Command<&'a str>>
    ensures command { option_map (named (λ n. n.now)) result ≡ turns_of (map (λ w. w.now) plain.now) (map given options.now) }
    ensures ranges { IfSome result (λ c. IsInRange c) }
{
    let [map, orders] = plain else {
        return None;
    };
    if !are_among(options, &[b"horizon"]) {
        return None;
    }
    let horizon = horizon_of(options)?;
    Some(Command::Turns {
        map,
        orders,
        horizon,
    })
}

fn command_by<'a>(name: &str, plain: &[&'a str], options: &[Given<'_>]) -> Option<Command<&'a str>>
    ensures ranges { IfSome result (λ c. IsInRange c) }
    ensures command { option_map (named (λ n. n.now)) result
        ≡ command_by name.now (record { plain = map (λ w. w.now) plain.now; options = map given options.now }) }
{
    match name {
        "one" => one_of(plain, options),
        "run" => run_of(plain, options),
        "orders" => orders_of(plain, options),
        "gen" => gen_of(plain, options),
        "check" => check_of(plain, options),
        "long" => long_of(plain, options),
        "turns" => turns_of(plain, options),
        _ => None,
    }
}

/// The command that the words after the program's name are, if they are one.
/// The names of files in it are borrowed from the words.
#[tactic(auto, unfolding(crate::specs::Words::command_of))]
pub fn read_words(alloc: Global, words: &[String]) -> Result<Option<Command<&str>>, Memory>
    ensures command { IfOk result (λ found. option_map (named (λ n. n.now)) found ≡ command_of (map string_bytes words.now)) }
    ensures ranges { IfOk result (λ found. IfSome found (λ c. IsInRange c)) }
{
    let [name, later @ ..] = words else {
        return Ok(None);
    };
    match sort_words(alloc, later)? {
        None => Ok(None),
        Some(sorted) => Ok(command_by(
            name.as_str(),
            sorted.plain.as_slice(),
            sorted.options.as_slice(),
        )),
    }
}
