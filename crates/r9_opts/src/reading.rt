//! Reading the words.

ghost use Rattle.std.specs.Prelude.{◌≡◌, ◌↔◌, codes, option_map, IfOk, IfErr, IsTrue};
ghost use Rattle.clap.specs.Walk.{first_of, one_of, rows_of};
ghost use Rattle.clap.specs.Matches.{found_of};
ghost use Rattle.clap.specs.Values.{kind_of};
ghost use Rattle.clap.specs.declared.error.kind.ErrorKind.TheVariants as kind;
ghost use Rattle.model_history.specs.words.Options.{or};
ghost use Rattle.r9_opts.specs.declared.job.Job.{Job};
ghost use Rattle.r9_opts.specs.declared.job.OptsFault.TheVariants as fault;
ghost use Rattle.r9_opts.specs.Asked.{AskFor, JobOf, IfUsage, texts_of};
ghost use Rattle.r9_opts.specs.Found.{IsFound};
ghost use Rattle.r9_opts.specs.Rows.{IsAddressOf, IsCountOf, IsDisplay, IsNumberOf, Tells};

use crate::command::rio9;
use crate::fit::are_fit;
use crate::job::{Job, OptsFault};
use crate::values::opening;
use clap::error::ErrorKind;
use clap::{ArgMatches, Error};
use r9_event::event::Opening;
use r9_memory::Memory;
use r9_wctl::sides::counted;
use std::alloc::Global;

/// The sides of the display where no others are asked for.
const SIDES: &str = "640x480";

/// The channels of the display where no others are asked for.
const CHANNELS: &str = "x8r8g8b8";

/// The most bytes of an address.
const LONGEST_ADDRESS: usize = 255;

const MOST_WORKERS: u32 = 16;

const MOST_CONNECTIONS: u32 = 100_000;

const MOST_MESSAGES: u32 = 100_000;

const MOST_SESSIONS: u32 = 4_294_967_295;

/// The least columns and the least rows of a window of text.
const LEAST_CELLS: u32 = 4;

const MOST_COLUMNS: u32 = 200;

const MOST_ROWS: u32 = 100;

/// The value of an option, where it is given.
fn value<'a>(given: &ArgMatches<'a>, name: &str) -> Option<&'a str>
    ensures { option_map (λ text. text.now) result ≡ first_of name.now (rows_of (found_of given.now)) }
{
    given.get_str(name)
}

/// The value of an option, or another.
fn value_or<'a>(given: &ArgMatches<'a>, name: &str, default: &'a str) -> &'a str
    ensures { result.now ≡ or (first_of name.now (rows_of (found_of given.now))) default.now }
{
    match value(given, name) {
        Some(text) => text,
        None => default,
    }
}

/// The number that an option gives, from 1 to a most one.
fn count(given: &ArgMatches<'_>, name: &str, most: u32) -> Option<u32>
    ensures { IsFound (IsCountOf (rows_of (found_of given.now)) name.now most) result }
{
    let Some(text) = value(given, name) else {
        return None;
    };
    counted(most, text.as_bytes())
}

/// The number that an option gives, from a least to a most one.
fn number(given: &ArgMatches<'_>, name: &str, least: u32, most: u32) -> Option<u32>
    ensures { IsFound (IsNumberOf (rows_of (found_of given.now)) name.now least most) result }
{
    let Some(number) = count(given, name, most) else {
        return None;
    };
    if number < least {
        return None;
    }
    Some(number)
}

/// The address that is given.
fn address<'a>(given: &ArgMatches<'a>) -> Option<&'a str>
    ensures { IsFound (IsAddressOf (rows_of (found_of given.now))) (option_map (λ text. text.now) result) }
{
    let Some(text) = value(given, "listen") else {
        return None;
    };
    if text.len() > LONGEST_ADDRESS {
        return None;
    }
    Some(text)
}

/// The display that options ask for.
fn display(given: &ArgMatches<'_>) -> Option<Opening>
    ensures { IsFound (IsDisplay (rows_of (found_of given.now))) result }
{
    opening(
        value_or(given, "size", SIDES),
        value_or(given, "chan", CHANNELS),
    )
}

/// Whether the screen is asked for.
fn has_screen(given: &ArgMatches<'_>) -> bool
    ensures { Tells (one_of (codes "screen") (rows_of (found_of given.now))) result }
{
    given.get_flag("screen")
}

fn replay(given: &ArgMatches<'_>) -> Option<Job>
    ensures { IsFound (JobOf (codes "replay") (rows_of (found_of given.now))) result }
{
    let Some(opening) = display(given) else {
        return None;
    };
    Some(Job::Replay {
        opening,
        screen: has_screen(given),
    })
}

fn mirror(given: &ArgMatches<'_>) -> Option<Job>
    ensures { IsFound (JobOf (codes "mirror") (rows_of (found_of given.now))) result }
{
    let Some(opening) = display(given) else {
        return None;
    };
    Some(Job::Mirror { opening })
}

fn serve(alloc: Global, given: &ArgMatches<'_>) -> Result<Option<Job>, Memory>
    ensures { IfOk result (λ job. IsFound (JobOf (codes "serve") (rows_of (found_of given.now))) job) }
{
    let Some(opening) = display(given) else {
        return Ok(None);
    };
    let Some(listen) = address(given) else {
        return Ok(None);
    };
    let Some(workers) = counted(MOST_WORKERS, value_or(given, "workers", "1").as_bytes()) else {
        return Ok(None);
    };
    let Some(conns) = count(given, "conns", MOST_CONNECTIONS) else {
        return Ok(None);
    };
    let listen = String::from_str(alloc, listen)?;
    Ok(Some(Job::Serve {
        opening,
        listen,
        workers,
        conns,
    }))
}

fn alone(given: &ArgMatches<'_>) -> Option<Job>
    ensures { IsFound (JobOf (codes "alone") (rows_of (found_of given.now))) result }
{
    let Some(opening) = display(given) else {
        return None;
    };
    let Some(session) = count(given, "conn", MOST_SESSIONS) else {
        return None;
    };
    Some(Job::Alone { opening, session })
}

fn text(given: &ArgMatches<'_>) -> Option<Job>
    ensures { IsFound (JobOf (codes "text") (rows_of (found_of given.now))) result }
{
    let Some(cols) = number(given, "cols", LEAST_CELLS, MOST_COLUMNS) else {
        return None;
    };
    let Some(rows) = number(given, "rows", LEAST_CELLS, MOST_ROWS) else {
        return None;
    };
    Some(Job::Text { cols, rows })
}

fn generate(given: &ArgMatches<'_>) -> Option<Job>
    ensures { IsFound (JobOf (codes "gen") (rows_of (found_of given.now))) result }
{
    let Some(number) = count(given, "number", MOST_MESSAGES) else {
        return None;
    };
    Some(Job::Gen { number })
}

/// The job of a command with its options.
fn job_of(alloc: Global, command: &str, given: &ArgMatches<'_>) -> Result<Option<Job>, Memory>
    ensures { IfOk result (λ job. IsFound (JobOf command.now (rows_of (found_of given.now))) job) }
{
    if command == "replay" {
        return Ok(replay(given));
    }
    if command == "mirror" {
        return Ok(mirror(given));
    }
    if command == "serve" {
        return serve(alloc, given);
    }
    if command == "alone" {
        return Ok(alone(given));
    }
    if command == "text" {
        return Ok(text(given));
    }
    if command == "desk" {
        return Ok(Some(Job::Desk));
    }
    if command == "gen" {
        return Ok(generate(given));
    }
    Ok(None)
}

/// Why clap refused the words.
fn fault_of(error: &Error) -> OptsFault
    ensures { IfUsage result (kind_of error.now ≡ kind.OutOfMemory → ⊥) }
{
    match error.kind() {
        ErrorKind::OutOfMemory => OptsFault::Memory,
        _ => OptsFault::Usage,
    }
}

/// The job that the words behind the program's name ask for. Usage exactly where they ask for none; Memory where it is
/// short.
pub fn read_words(alloc: Global, words: &[&str]) -> Result<Job, OptsFault>
    ensures found { IfOk result (AskFor (texts_of words.now)) }
    ensures usage { IfErr result (λ fault. IfUsage fault ((job : Job) → AskFor (texts_of words.now) job → ⊥)) }
{
    if !are_fit(words) {
        return Err(OptsFault::Usage);
    }
    let matches = match rio9(alloc)?.try_get_matches_from(words) {
        Ok(matches) => matches,
        Err(error) => return Err(fault_of(&error)),
    };
    let Some((command, given)) = matches.subcommand() else {
        return Err(OptsFault::Usage);
    };
    match job_of(alloc, command, given)? {
        Some(job) => Ok(job),
        None => Err(OptsFault::Usage),
    }
}
