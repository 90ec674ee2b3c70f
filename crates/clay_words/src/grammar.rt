//! The program's commands, as clap is told them.
ghost use Rattle.std.specs.Prelude.{◌≡◌, false, IfOk};
ghost use Rattle.clap.specs.Words.{app_of, rule_of};
ghost use Rattle.clay_words.specs.Grammar.{IsApp, bare_app, clay_app, command_app, number_rule};

use crate::word_names::{NAMES, Name};
use clap::{Arg, Command};
use std::alloc::{AllocError, Global};

// A number that must stand there.
fn number<'a>(alloc: Global, id: &'a str) -> Arg<'a>
    ensures rule { rule_of result ≡ number_rule id.entry.now }
    ensures local { result.global ≡ false }
{
    Arg::new(alloc, id).required(true)
}

// A command, with its numbers.
fn command_grammar<'a>(alloc: Global, name: Name) -> Result<Command<'a>, AllocError>
    ensures { IfOk result (λ command. IsApp command (command_app name)) }
{
    let ids = name.ids();
    let mut command = Command::new(alloc, name.word());
    for id in ids {
        command = command.arg(number(alloc, id))?;
    }
    Ok(command)
}

// The program without its commands.
fn bare_grammar<'a>(alloc: Global) -> Command<'a>
    ensures { IsApp result bare_app }
{
    Command::new(alloc, "clay")
        .no_binary_name(true)
        .disable_help_flag(true)
        .disable_help_subcommand(true)
}

/// The program with its commands.
pub fn clay_grammar<'a>(alloc: Global) -> Result<Command<'a>, AllocError>
    ensures { IfOk result (λ command. app_of command ≡ clay_app) }
{
    let mut program = bare_grammar(alloc);
    for name in NAMES {
        program = program.subcommand(command_grammar(alloc, name)?)?;
    }
    Ok(program)
}
