// The commands of the tool, and the arguments of the command line.

ghost use Rattle.std.specs.Prelude.{IfOk, IfErr, IfSome};
ghost use Rattle.command_line.specs.Arguments.{GivesAll, IsBare, wanted_of};
ghost use Rattle.command_line.specs.Arguments.{IsInRange, IsOddIfWidth};

use crate::help::{COMMANDS, Described, ending_of_help};
use crate::task::{Options, UsageFault};
use clap::error::ErrorKind;
use clap::{ArgMatches, Command, Error};
use std::alloc::{AllocError, Global};

/// A command of the tool.
#[derive(Clone, Copy, Debug)]
pub enum Named {
    Farm,
    Map,
    Tc,
    Tm,
    Clcw,
    Check,
    Packets,
    Encode,
    Sim,
    Ground,
    Spacecraft,
}

impl<'a> Described<'a> {
    // Returns the command with this name.
    fn of(name: &str) -> Option<Described<'static>> {
        for described in COMMANDS {
            if described.name == name {
                return Some(described);
            }
        }
        None
    }

    // Returns the command with no argument yet.
    fn bare(self, alloc: Global) -> Result<Command<'a>, AllocError>
        ensures { IfOk result IsBare }
    {
        let named = Command::new(alloc, self.name).bin_name(self.bin_name)?;
        Ok(named.about(self.about).after_help(self.ending))
    }

    // Parses the arguments of the command, its name first.
    fn given(self, alloc: Global, words: &'a [&'a str]) -> Result<ArgMatches<'a>, Error>
        ensures { IfOk result (λ given. GivesAll given (wanted_of self.entry.command)) }
    {
        let arguments = self
            .command
            .arguments(alloc, self.file, has_word_for_vr(words))?;
        let bare = self.bare(alloc)?;
        let command = bare.args(arguments)?;
        command.try_get_matches_from(words)
    }

    // Returns what the arguments of the command request. Its name comes first.
    fn options(self, alloc: Global, words: &'a [&'a str]) -> Result<Options<'a>, UsageFault>
        ensures range { IfOk result (λ options. IsInRange options.task) }
        ensures odd { IfErr result IsOddIfWidth }
    {
        let given = self.given(alloc, words)?;
        Ok(Options {
            task: self.command.task(&given)?,
            count: self.command.count(&given),
            file: self.command.file(&given),
        })
    }
}

// Returns whether the arguments contain `--vr first`, or another word for the number. What follows `--`
// is a file.
fn has_word_for_vr(words: &[&str]) -> bool {
    let mut before = "";
    for word in words {
        if *word == "--" {
            return false;
        }
        if begins_with_letter(value_of_vr(before, word)) {
            return true;
        }
        before = word;
    }
    false
}

// Returns the value of `--vr` that an argument contains, after the argument before it; empty if it
// contains none.
fn value_of_vr<'a>(before: &str, word: &'a str) -> &'a [u8] {
    match word.as_bytes() {
        [b'-', b'-', b'v', b'r', b'=', value @ ..] => value,
        value if before == "--vr" => value,
        _ => b"",
    }
}

fn begins_with_letter(value: &[u8]) -> bool {
    matches!(value, [b'a'..=b'z' | b'A'..=b'Z', ..])
}

/// Reads the arguments of a command line, the program's name first. The numbers of the task that it
/// returns are in range.
///
/// The fault `Words` is what the parser answers to arguments that it refuses, or to a request for
/// help or the version. `OddWidth` is an odd width, in arguments that are otherwise valid.
/// Faults: Words, OddWidth. Memory: yes. Cost: n.
pub fn options<'a>(alloc: Global, words: &'a [&'a str]) -> Result<Options<'a>, UsageFault>
    ensures range { IfOk result (λ options. IsInRange options.task) }
    ensures odd { IfErr result IsOddIfWidth }
{
    if let [_, name, ..] = words {
        if let Some(command) = Described::of(name) {
            return command.options(alloc, &words[1..]);
        }
    }
    if let [_, "help", name] = words {
        if let Some(fault) = help_of(alloc, name) {
            return Err(fault);
        }
    }
    Err(UsageFault::Words(other_words(alloc, words)))
}

// Returns what `help` answers for a command.
fn help_of(alloc: Global, name: &str) -> Option<UsageFault>
    ensures { IfSome result IsOddIfWidth }
{
    let command = Described::of(name)?;
    command.options(alloc, &[name, "--help"]).err()
}

// Returns what the parser answers if no command is named: the requested help, or what is wrong.
fn other_words(alloc: Global, words: &[&str]) -> Error {
    match no_command(alloc, words) {
        Ok(error) => error,
        Err(error) => Error::from(error),
    }
}

fn no_command<'a>(alloc: Global, words: &'a [&'a str]) -> Result<Error, AllocError> {
    let mut command = every_command(alloc)?;
    match command.try_get_matches_from_mut(words) {
        Err(error) => Ok(error),
        Ok(_) => command.error(ErrorKind::MissingSubcommand, "a command is wanted"),
    }
}

// Returns the tool with each of its commands. Their arguments are not read.
fn every_command<'a>(alloc: Global) -> Result<Command<'a>, AllocError> {
    let mut command = Command::new(alloc, "tctool")
        .about("Tools for the telecommand link")
        .version("0.3.0")
        .after_help(ending_of_help!("3 BC unlock Open vr=0 l=0 w=0 t=0 b=1"))
        .subcommand_required(true);
    for described in COMMANDS {
        command = command.subcommand(Command::new(alloc, described.name).about(described.about))?;
    }
    Ok(command)
}
