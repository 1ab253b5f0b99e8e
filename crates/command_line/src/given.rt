// The values that the arguments of a command give.

ghost use Rattle.std.specs.Prelude.{◌≡◌, ◌≤◌, IfOk, IfErr, IfSome};
ghost use Rattle.cop1.specs.Farm.{IsWidth};
ghost use Rattle.command_line.specs.Arguments.{Gives, GivesAll, file_of, length, wanted_of, width};
ghost use Rattle.command_line.specs.Arguments.{apid, map, scid, telemetry_vcid, vcid};
ghost use Rattle.command_line.specs.Arguments.{AreIdentifiers, IsInRange, IsMapPart, IsOddIfWidth, IsSearched};

use crate::arguments::FIRST;
use crate::commands::Named;
use crate::task::{Channel, MapPart, Part, Searched, Task, UsageFault};
use clap::ArgMatches;

impl Named {
    /// Returns what the arguments of the command request.
    pub fn task(self, given: &ArgMatches<'_>) -> Result<Task, UsageFault>
        requires { GivesAll given.now (wanted_of self) }
        ensures range { IfOk result IsInRange }
        ensures odd { IfErr result IsOddIfWidth }
    {
        if let Some((scid, vcid)) = self.searched_channel(given) {
            if let Some(listed) = self.searched(given)? {
                return Ok(Task::Resync { listed, scid, vcid });
            }
        }
        Ok(match self {
            Named::Farm => Task::Farm {
                check: given.get_flag("check"),
                width: width_given(given)?,
                vr: vr_given(given),
                part: some_part(part_given(given)),
            },
            Named::Map => Task::Map {
                check: given.get_flag("check"),
                width: width_given(given)?,
                vr: vr_given(given),
                blocking: given.get_flag("blocking"),
                part: map_part_given(given),
            },
            Named::Tc => Task::Tc {
                check: given.get_flag("check"),
                channel: some_channel(channel_given(given)),
            },
            Named::Tm => Task::Tm {
                length: length_given(given),
                report: given.get_flag("report"),
                channel: some_channel(telemetry_channel_given(given)),
            },
            Named::Clcw => Task::Clcw {
                vcid: vcid_given(given),
            },
            Named::Check => Task::Check {
                channel: some_channel(channel_given(given)),
            },
            Named::Packets => Task::Packets {
                apid: apid_given(given),
            },
            Named::Encode => Task::Encode {
                check: given.get_flag("check"),
                skips: given.get_flag("skip-invalid"),
            },
            Named::Sim => Task::Sim,
            Named::Ground => Task::Ground,
            Named::Spacecraft => Task::Spacecraft,
        })
    }

    // Returns the channel whose good frames are searched for, if they are.
    fn searched_channel(self, given: &ArgMatches<'_>) -> Option<(u16, u8)>
        requires { GivesAll given.now (wanted_of self) }
        ensures { IfSome result (λ c. (c.0 ≤ 1023) × (c.1 ≤ 63)) }
    {
        match self {
            Named::Farm | Named::Map | Named::Tc | Named::Check if given.get_flag("resync") => {
                Some((scid_given(given)?, vcid_given(given)?))
            }
            _ => None,
        }
    }

    // Returns what is listed for those frames.
    fn searched(self, given: &ArgMatches<'_>) -> Result<Option<Searched>, UsageFault>
        requires { GivesAll given.now (wanted_of self) }
        ensures range { IfOk result (λ listed. IfSome listed IsSearched) }
        ensures odd { IfErr result IsOddIfWidth }
    {
        Ok(match self {
            Named::Farm => Some(Searched::Farm {
                width: width_given(given)?,
                vr: vr_given(given),
                from_first: is_from_first(given),
            }),
            Named::Map => Some(Searched::Map {
                width: width_given(given)?,
                vr: vr_given(given),
                from_first: is_from_first(given),
                blocking: given.get_flag("blocking"),
                map: map_given(given),
            }),
            Named::Tc => Some(Searched::Tc),
            Named::Check => Some(Searched::Check),
            _ => None,
        })
    }

    /// Returns whether the totals of the lines are requested; false if no file is listed.
    pub fn count(self, given: &ArgMatches<'_>) -> bool
        requires { GivesAll given.now (wanted_of self) }
    {
        match self {
            Named::Encode | Named::Sim | Named::Ground | Named::Spacecraft => false,
            _ => given.get_flag("count"),
        }
    }

    /// Returns the name of the file. It is standard input for a node that is run with no file.
    pub fn file<'a>(self, given: &ArgMatches<'a>) -> &'a str
        requires { Gives given.now (file_of self) }
    {
        match self {
            Named::Ground | Named::Spacecraft => given.get_str("FILE").unwrap_or("-"),
            _ => given.get_str("FILE").unwrap(),
        }
    }
}

// Returns the given width, or else 254, if it is even.
fn width_given(given: &ArgMatches<'_>) -> Result<u8, UsageFault>
    requires { Gives given.now width }
    ensures even { IfOk result IsWidth }
    ensures odd { IfErr result IsOddIfWidth }
{
    let width = given.get_one::<u8>("width").unwrap_or(254);
    if width % 2 == 1 {
        return Err(UsageFault::OddWidth { width });
    }
    Ok(width)
}

// Returns the number of the first frame, or else 0.
fn vr_given(given: &ArgMatches<'_>) -> u8 {
    given.get_one::<u8>("vr").unwrap_or(0)
}

// Returns whether the number of the first frame is that of the first frame in the file.
fn is_from_first(given: &ArgMatches<'_>) -> bool {
    given.get_str("vr") == Some(FIRST)
}

fn scid_given(given: &ArgMatches<'_>) -> Option<u16>
    requires { Gives given.now scid }
    ensures { IfSome result (λ n. n ≤ 1023) }
{
    given.get_one::<u16>("scid")
}

fn vcid_given(given: &ArgMatches<'_>) -> Option<u8>
    requires { Gives given.now vcid }
    ensures { IfSome result (λ n. n ≤ 63) }
{
    given.get_one::<u8>("vcid")
}

fn telemetry_vcid_given(given: &ArgMatches<'_>) -> Option<u8>
    requires { Gives given.now telemetry_vcid }
    ensures { IfSome result (λ n. n ≤ 7) }
{
    given.get_one::<u8>("vcid")
}

// Returns the channel of telecommand frames.
fn channel_given(given: &ArgMatches<'_>) -> Channel
    requires scid { Gives given.now scid }
    requires vcid { Gives given.now vcid }
    ensures { AreIdentifiers 63 result }
{
    Channel {
        scid: scid_given(given),
        vcid: vcid_given(given),
    }
}

// Returns the channel of telemetry frames.
fn telemetry_channel_given(given: &ArgMatches<'_>) -> Channel
    requires scid { Gives given.now scid }
    requires vcid { Gives given.now telemetry_vcid }
    ensures { AreIdentifiers 7 result }
{
    Channel {
        scid: scid_given(given),
        vcid: telemetry_vcid_given(given),
    }
}

// Returns the channel, if any of it is given.
fn some_channel(channel: Channel) -> Option<Channel>
    ensures { IfSome result (λ c. c ≡ channel) }
{
    match channel {
        Channel {
            scid: None,
            vcid: None,
        } => None,
        channel => Some(channel),
    }
}

fn part_given(given: &ArgMatches<'_>) -> Part
    requires scid { Gives given.now scid }
    requires vcid { Gives given.now vcid }
    ensures { AreIdentifiers 63 result.channel }
{
    Part {
        channel: channel_given(given),
        from_first: is_from_first(given),
    }
}

// Returns what a receiver takes, if that is not everything.
fn some_part(part: Part) -> Option<Part>
    ensures { IfSome result (λ p. p ≡ part) }
{
    match some_channel(part.channel) {
        None if !part.from_first => None,
        _ => Some(part),
    }
}

// Returns what a receiver takes, and the MAP, if that is not everything.
fn map_part_given(given: &ArgMatches<'_>) -> Option<MapPart>
    requires scid { Gives given.now scid }
    requires vcid { Gives given.now vcid }
    requires map { Gives given.now map }
    ensures { IfSome result IsMapPart }
{
    let part = part_given(given);
    match (some_part(part), map_given(given)) {
        (None, None) => None,
        (_, map) => Some(MapPart { part, map }),
    }
}

fn map_given(given: &ArgMatches<'_>) -> Option<u8>
    requires { Gives given.now map }
    ensures { IfSome result (λ n. n ≤ 63) }
{
    given.get_one::<u8>("map")
}

fn apid_given(given: &ArgMatches<'_>) -> Option<u16>
    requires { Gives given.now apid }
    ensures { IfSome result (λ n. n ≤ 2047) }
{
    given.get_one::<u16>("apid")
}

// Returns the length of a frame.
fn length_given(given: &ArgMatches<'_>) -> u16
    requires { Gives given.now length }
    ensures { (16 ≤ result) × (result ≤ 2048) }
{
    given.get_one::<u16>("length").unwrap()
}
