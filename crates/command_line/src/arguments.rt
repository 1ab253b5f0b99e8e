// The arguments of the commands.

ghost use Rattle.std.specs.Prelude.{◌≡◌, ◌≤◌, Some, None, IfOk};
ghost use Rattle.clap.specs.Facts.{least_values};
ghost use Rattle.command_line.specs.declared.commands.Named.TheVariants as commands;
ghost use Rattle.command_line.specs.Arguments.{AreArguments, IsArgument, wanted_of};
ghost use Rattle.command_line.specs.Arguments.{apid, blocking, check, count, file, input, length, map, named, report, resync};
ghost use Rattle.command_line.specs.Arguments.{scid, skip_invalid, telemetry_vcid, vcid, vr, width};

use crate::commands::Named;
use clap::builder::ValueParser;
use clap::{Arg, ArgAction, value_parser};
use std::alloc::{AllocError, Global};

/// The word for the number of the first frame that arrives.
pub const FIRST: &str = "first";

impl Named {
    /// Returns the arguments that the command takes. `help` describes its file, and `by_word` states
    /// whether `--vr` has a word instead of a number.
    pub fn arguments<'a>(
        self,
        alloc: Global,
        help: &'a str,
        by_word: bool,
    ) -> Result<Vec<Arg<'a>>, AllocError>
        ensures { IfOk result (λ arguments. AreArguments arguments.items (wanted_of self)) }
    {
        match self {
            Named::Farm => farm_arguments(alloc, help, by_word),
            Named::Map => map_arguments(alloc, help, by_word),
            Named::Tc => tc_arguments(alloc, help),
            Named::Tm => tm_arguments(alloc, help),
            Named::Check => check_arguments(alloc, help),
            Named::Clcw => clcw_arguments(alloc, help),
            Named::Packets => packets_arguments(alloc, help),
            Named::Encode => encode_arguments(alloc, help),
            Named::Sim => sim_arguments(alloc, help),
            Named::Ground | Named::Spacecraft => node_arguments(alloc, help),
        }
    }
}

// Returns the arguments of `farm`.
fn farm_arguments<'a>(
    alloc: Global,
    help: &'a str,
    by_word: bool,
) -> Result<Vec<Arg<'a>>, AllocError>
    ensures { IfOk result (λ arguments. AreArguments arguments.items (wanted_of commands.Farm)) }
{
    let resync = needs_check(resync_flag(alloc)?)?;
    Ok(vec![in alloc;
        width_option(alloc),
        vr_option(alloc, by_word),
        scid_option(alloc),
        vcid_option(alloc),
        check_flag(alloc),
        resync,
        count_flag(alloc),
        file_argument(alloc, help),
    ]?)
}

// Returns the arguments of `map`.
fn map_arguments<'a>(
    alloc: Global,
    help: &'a str,
    by_word: bool,
) -> Result<Vec<Arg<'a>>, AllocError>
    ensures { IfOk result (λ arguments. AreArguments arguments.items (wanted_of commands.Map)) }
{
    let resync = needs_check(resync_flag(alloc)?)?;
    Ok(vec![in alloc;
        width_option(alloc),
        vr_option(alloc, by_word),
        scid_option(alloc),
        vcid_option(alloc),
        map_option(alloc),
        check_flag(alloc),
        resync,
        blocking_flag(alloc),
        count_flag(alloc),
        file_argument(alloc, help),
    ]?)
}

// Returns the arguments of `tc`.
fn tc_arguments<'a>(alloc: Global, help: &'a str) -> Result<Vec<Arg<'a>>, AllocError>
    ensures { IfOk result (λ arguments. AreArguments arguments.items (wanted_of commands.Tc)) }
{
    let resync = needs_check(resync_flag(alloc)?)?;
    Ok(vec![in alloc;
        scid_option(alloc),
        vcid_option(alloc),
        check_flag(alloc),
        resync,
        count_flag(alloc),
        file_argument(alloc, help),
    ]?)
}

// Returns the arguments of `check`.
fn check_arguments<'a>(alloc: Global, help: &'a str) -> Result<Vec<Arg<'a>>, AllocError>
    ensures { IfOk result (λ arguments. AreArguments arguments.items (wanted_of commands.Check)) }
{
    let resync = resync_flag(alloc)?;
    Ok(vec![in alloc;
        scid_option(alloc),
        vcid_option(alloc),
        resync,
        count_flag(alloc),
        file_argument(alloc, help),
    ]?)
}

// Returns the arguments of `tm`.
fn tm_arguments<'a>(alloc: Global, help: &'a str) -> Result<Vec<Arg<'a>>, AllocError>
    ensures { IfOk result (λ arguments. AreArguments arguments.items (wanted_of commands.Tm)) }
{
    Ok(vec![in alloc;
        length_option(alloc),
        scid_option(alloc),
        telemetry_vcid_option(alloc),
        report_flag(alloc),
        count_flag(alloc),
        file_argument(alloc, help),
    ]?)
}

// Returns the arguments of `clcw`.
fn clcw_arguments<'a>(alloc: Global, help: &'a str) -> Result<Vec<Arg<'a>>, AllocError>
    ensures { IfOk result (λ arguments. AreArguments arguments.items (wanted_of commands.Clcw)) }
{
    Ok(vec![in alloc;
        word_vcid_option(alloc),
        count_flag(alloc),
        file_argument(alloc, help),
    ]?)
}

// Returns the arguments of `packets`.
fn packets_arguments<'a>(alloc: Global, help: &'a str) -> Result<Vec<Arg<'a>>, AllocError>
    ensures { IfOk result (λ arguments. AreArguments arguments.items (wanted_of commands.Packets)) }
{
    Ok(vec![in alloc;
        apid_option(alloc),
        count_flag(alloc),
        file_argument(alloc, help),
    ]?)
}

// Returns the arguments of `encode`.
fn encode_arguments<'a>(alloc: Global, help: &'a str) -> Result<Vec<Arg<'a>>, AllocError>
    ensures { IfOk result (λ arguments. AreArguments arguments.items (wanted_of commands.Encode)) }
{
    Ok(vec![in alloc;
        check_flag(alloc),
        skip_invalid_flag(alloc),
        file_argument(alloc, help),
    ]?)
}

// Returns the arguments of `sim`.
fn sim_arguments<'a>(alloc: Global, help: &'a str) -> Result<Vec<Arg<'a>>, AllocError>
    ensures { IfOk result (λ arguments. AreArguments arguments.items (wanted_of commands.Sim)) }
{
    Ok(vec![in alloc; file_argument(alloc, help)]?)
}

// Returns the arguments of a node that is run line by line.
fn node_arguments<'a>(alloc: Global, help: &'a str) -> Result<Vec<Arg<'a>>, AllocError>
    ensures { IfOk result (λ arguments. AreArguments arguments.items (wanted_of commands.Ground)) }
{
    Ok(vec![in alloc; input_argument(alloc, help)]?)
}

// `--width W`, the width of the window.
fn width_option<'a>(alloc: Global) -> Arg<'a>
    ensures { IsArgument result width }
{
    let help = "Width of the window, even, 2 to 254 [default: 254]";
    option(alloc, "width", "W", help).value_parser(value_parser!(u8).range(2..=254))
}

// `--vr N`, the number of the first frame that is expected. A number and the word have separate
// parsers.
fn vr_option<'a>(alloc: Global, by_word: bool) -> Arg<'a>
    ensures { IsArgument result vr }
{
    let help = "Number of the first frame expected, 0 to 255, or first [default: 0]";
    let number = option(alloc, "vr", "N", help);
    if by_word {
        number
            .value_parser(ValueParser::Names(&[FIRST]))
            .hide_possible_values(true)
    } else {
        number.value_parser(value_parser!(u8))
    }
}

// `--scid S`, the spacecraft.
fn scid_option<'a>(alloc: Global) -> Arg<'a>
    ensures { IsArgument result scid }
{
    let help = "List only frames of this spacecraft, 0 to 1023";
    option(alloc, "scid", "S", help).value_parser(value_parser!(u16).range(0..=1023))
}

// `--vcid V`, the virtual channel of telecommand frames.
fn vcid_option<'a>(alloc: Global) -> Arg<'a>
    ensures { IsArgument result vcid }
{
    let help = "List only frames of this virtual channel, 0 to 63";
    option(alloc, "vcid", "V", help).value_parser(value_parser!(u8).range(0..=63))
}

// `--vcid V`, the virtual channel that CLCWs report on.
fn word_vcid_option<'a>(alloc: Global) -> Arg<'a>
    ensures { IsArgument result vcid }
{
    let help = "List only CLCWs of this virtual channel, 0 to 63";
    option(alloc, "vcid", "V", help).value_parser(value_parser!(u8).range(0..=63))
}

// `--vcid V`, the virtual channel of telemetry frames.
fn telemetry_vcid_option<'a>(alloc: Global) -> Arg<'a>
    ensures { IsArgument result telemetry_vcid }
{
    let help = "List only frames of this virtual channel, 0 to 7";
    option(alloc, "vcid", "V", help).value_parser(value_parser!(u8).range(0..=7))
}

// `--map M`, the MAP.
fn map_option<'a>(alloc: Global) -> Arg<'a>
    ensures { IsArgument result map }
{
    let help = "List only packets of this MAP, 0 to 63; the receiver takes frames of all MAPs";
    option(alloc, "map", "M", help).value_parser(value_parser!(u8).range(0..=63))
}

// `--apid A`, the application process.
fn apid_option<'a>(alloc: Global) -> Arg<'a>
    ensures { IsArgument result apid }
{
    let help = "List only packets of this application process, 0 to 2047";
    option(alloc, "apid", "A", help).value_parser(value_parser!(u16).range(0..=2047))
}

// `--length F`, the octets of a frame.
fn length_option<'a>(alloc: Global) -> Arg<'a>
    ensures { IsArgument result length }
{
    option(alloc, "length", "F", "Frame length in octets, 16 to 2048")
        .required(true)
        .value_parser(value_parser!(u16).range(16..=2048))
}

// `--report`, whether CLCWs have a line.
fn report_flag<'a>(alloc: Global) -> Arg<'a>
    ensures { IsArgument result report }
{
    let help = "List what the CLCW of each frame reports";
    flag(alloc, "report", help)
}

// `--check`, whether frames end with their check.
fn check_flag<'a>(alloc: Global) -> Arg<'a>
    ensures { IsArgument result check }
{
    flag(alloc, "check", "Frames end with their check (FECF)")
}

// `--resync`, whether octets that do not form a good frame of the channel are skipped. It requires the
// channel.
fn resync_flag<'a>(alloc: Global) -> Result<Arg<'a>, AllocError>
    ensures { IfOk result (λ argument. IsArgument argument resync) }
{
    let help = "Skip octets up to the next good frame of the channel";
    flag(alloc, "resync", help)
        .requires_arg("scid")?
        .requires_arg("vcid")
}

// Returns the argument, which then requires `--check`.
fn needs_check<'a>(argument: Arg<'a>) -> Result<Arg<'a>, AllocError>
    requires { IsArgument argument resync }
    ensures { IfOk result (λ argument. IsArgument argument resync) }
{
    argument.requires_arg("check")
}

// `--skip-invalid`, whether lines not meant to carry octets are skipped.
fn skip_invalid_flag<'a>(alloc: Global) -> Arg<'a>
    ensures { IsArgument result skip_invalid }
{
    let help = "Skip lines not meant to carry octets, such as those of refused records";
    flag(alloc, "skip-invalid", help)
}

// `--blocking`, whether a segment may hold several packets.
fn blocking_flag<'a>(alloc: Global) -> Arg<'a>
    ensures { IsArgument result blocking }
{
    flag(alloc, "blocking", "Accept several packets in one segment")
}

// `--count`, whether totals are written instead of lines.
fn count_flag<'a>(alloc: Global) -> Arg<'a>
    ensures { IsArgument result count }
{
    let help = "Write totals instead of lines";
    flag(alloc, "count", help)
}

// `FILE`.
fn file_argument<'a>(alloc: Global, help: &'a str) -> Arg<'a>
    ensures { IsArgument result file }
{
    Arg::new(alloc, "FILE")
        .required(true)
        .help(help)
        .action(ArgAction::Set)
}

// `[FILE]`; standard input if there is none.
fn input_argument<'a>(alloc: Global, help: &'a str) -> Arg<'a>
    ensures { IsArgument result input }
{
    Arg::new(alloc, "FILE").help(help).action(ArgAction::Set)
}

// `--name`.
fn flag<'a>(alloc: Global, name: &'a str, help: &'a str) -> Arg<'a>
    ensures { IsArgument result (named name.entry.now) }
{
    Arg::new(alloc, name)
        .long(name)
        .help(help)
        .action(ArgAction::SetTrue)
}

// `--name VALUE`.
fn option<'a>(alloc: Global, name: &'a str, value: &'a str, help: &'a str) -> Arg<'a>
    ensures named { IsArgument result (named name.entry.now) }
    ensures takes { (result.action ≡ Some ArgAction.Set) × (result.val_delim ≡ None)
        × (1 ≤ least_values result) }
{
    Arg::new(alloc, name)
        .long(name)
        .value_name(value)
        .help(help)
        .action(ArgAction::Set)
}
