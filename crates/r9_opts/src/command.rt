//! The commands as clap is told of them.

ghost use Rattle.std.specs.Prelude.{◌≡◌, codes, false, IfOk};
ghost use Rattle.clap.specs.Words.{app_of, rule_of};
ghost use Rattle.clap.specs.declared.builder.command.Command.TheViews.{out-Command};
ghost use Rattle.r9_opts.specs.App.{valued_rule, flag_rule, word_rule, sized_app, replay_app, mirror_app, serve_app, alone_app, text_app, desk_app, gen_app, bare_app, answering_app, rio9_app};

use clap::{Arg, ArgAction, Command};
use std::alloc::{AllocError, Global};

/// An option with a value.
fn valued<'a>(alloc: Global, name: &'a str) -> Arg<'a>
    ensures rule { rule_of result ≡ valued_rule name.entry.now }
    ensures local { result.global ≡ false }
{
    Arg::new(alloc, name).long(name).action(ArgAction::Set)
}

/// An option without one.
fn flag<'a>(alloc: Global, name: &'a str) -> Arg<'a>
    ensures rule { rule_of result ≡ flag_rule name.entry.now }
    ensures local { result.global ≡ false }
{
    Arg::new(alloc, name).long(name).action(ArgAction::SetTrue)
}

/// A command with the options of a display.
fn sized<'a>(alloc: Global, name: &'a str) -> Result<Command<'a>, AllocError>
    ensures app { IfOk result (λ c. app_of c ≡ sized_app name.entry.now) }
    ensures local { IfOk result (λ c. (out-Command c).has_globals ≡ false) }
{
    Command::new(alloc, name)
        .arg(valued(alloc, "size"))?
        .arg(valued(alloc, "chan"))
}

fn replay<'a>(alloc: Global) -> Result<Command<'a>, AllocError>
    ensures app { IfOk result (λ c. app_of c ≡ replay_app) }
    ensures local { IfOk result (λ c. (out-Command c).has_globals ≡ false) }
{
    sized(alloc, "replay")?.arg(flag(alloc, "screen"))
}

fn mirror<'a>(alloc: Global) -> Result<Command<'a>, AllocError>
    ensures app { IfOk result (λ c. app_of c ≡ mirror_app) }
    ensures local { IfOk result (λ c. (out-Command c).has_globals ≡ false) }
{
    sized(alloc, "mirror")
}

fn serve<'a>(alloc: Global) -> Result<Command<'a>, AllocError>
    ensures app { IfOk result (λ c. app_of c ≡ serve_app) }
    ensures local { IfOk result (λ c. (out-Command c).has_globals ≡ false) }
{
    sized(alloc, "serve")?
        .arg(valued(alloc, "listen"))?
        .arg(valued(alloc, "workers"))?
        .arg(valued(alloc, "conns"))
}

fn alone<'a>(alloc: Global) -> Result<Command<'a>, AllocError>
    ensures app { IfOk result (λ c. app_of c ≡ alone_app) }
    ensures local { IfOk result (λ c. (out-Command c).has_globals ≡ false) }
{
    sized(alloc, "alone")?.arg(valued(alloc, "conn"))
}

fn text<'a>(alloc: Global) -> Result<Command<'a>, AllocError>
    ensures app { IfOk result (λ c. app_of c ≡ text_app) }
    ensures local { IfOk result (λ c. (out-Command c).has_globals ≡ false) }
{
    Command::new(alloc, "text")
        .arg(valued(alloc, "cols"))?
        .arg(valued(alloc, "rows"))
}

fn desk<'a>(alloc: Global) -> Command<'a>
    ensures app { app_of result ≡ desk_app }
    ensures local { (out-Command result).has_globals ≡ false }
{
    Command::new(alloc, "desk")
}

fn generate<'a>(alloc: Global) -> Result<Command<'a>, AllocError>
    ensures app { IfOk result (λ c. app_of c ≡ gen_app) }
    ensures local { IfOk result (λ c. (out-Command c).has_globals ≡ false) }
{
    let number = Arg::new(alloc, "number").action(ArgAction::Set);
    Command::new(alloc, "gen").arg(number)
}

/// The program, whose words begin with a command, without help and version.
fn bare<'a>(alloc: Global) -> Command<'a>
    ensures app { app_of result ≡ bare_app }
    ensures local { (out-Command result).has_globals ≡ false }
{
    Command::new(alloc, "rio9")
        .no_binary_name(true)
        .disable_help_flag(true)
        .disable_help_subcommand(true)
        .disable_version_flag(true)
}

/// The program with the commands that answer sessions, or show what they drew.
fn answering<'a>(alloc: Global) -> Result<Command<'a>, AllocError>
    ensures app { IfOk result (λ c. app_of c ≡ answering_app) }
    ensures local { IfOk result (λ c. (out-Command c).has_globals ≡ false) }
{
    bare(alloc)
        .subcommand(replay(alloc)?)?
        .subcommand(mirror(alloc)?)?
        .subcommand(serve(alloc)?)?
        .subcommand(alone(alloc)?)
}

/// The program with its commands.
pub fn rio9<'a>(alloc: Global) -> Result<Command<'a>, AllocError>
    ensures { IfOk result (λ c. app_of c ≡ rio9_app) }
{
    answering(alloc)?
        .subcommand(text(alloc)?)?
        .subcommand(desk(alloc))?
        .subcommand(generate(alloc)?)
}
