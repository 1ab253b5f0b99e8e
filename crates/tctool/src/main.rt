//! The command `tctool`. It lists what files of telecommand frames, telemetry frames, CLCWs and space packets
//! hold. It lists what a receiver does with telecommand frames, and the packets from these frames. It encodes
//! lines of frames and packets, runs scripts of a simulated link, and runs a node line by line.
#![tactic(auto)]

ghost use Rattle.command_line.specs.Arguments.{IsInRange};

mod dump;
mod encoding;
mod given;
mod node;
mod noting;
mod simulation;

use clap::Error;
use clap::error::ErrorKind;
use command_line::{Options, UsageFault};
use given::GivenWords;
use noting::{Noting, reason};
use std::fs::File;
use std::io;
use std::io::{IsTerminal, Read, Seek, SeekFrom};
use std::process::ExitCode;
use stream_commands::{Note, ending};
use streams::{Reader, StreamFault, Writer};

fn main(rt: HostRuntime) -> ExitCode {
    ExitCode::from(match GivenWords::read(&rt, rt.alloc()) {
        Ok(given) => status_for(&rt, &given),
        Err(_) => fails(&rt, StreamFault::Memory),
    })
}

// Writes a fault to standard error, and returns the status.
fn fails(rt: &HostRuntime, fault: StreamFault) -> u8 {
    ending(&Err(fault), &mut Writer::new(rt.stderr()))
}

fn status_for(rt: &HostRuntime, given: &GivenWords) -> u8 {
    let Ok(texts) = given.texts(rt.alloc()) else {
        return fails(rt, StreamFault::Memory);
    };
    match command_line::options(rt.alloc(), texts.as_slice()) {
        Ok(options) if given.is_unicode() => run(rt, &options),
        Ok(options) => cannot_open(rt, options.file, "the name is not Unicode"),
        Err(UsageFault::Words(error)) => answer(rt, &error),
        Err(UsageFault::OddWidth { .. }) => {
            let _ = eprintln!(rt; "tctool: width is odd");
            2
        }
    }
}

// Prints what the parser of the arguments answers.
fn answer(rt: &HostRuntime, error: &Error) -> u8 {
    if error.kind() == ErrorKind::OutOfMemory {
        return fails(rt, StreamFault::Memory);
    }
    let printed = error.print(rt);
    if error.use_stderr() {
        2
    } else if printed.is_err() {
        fails(rt, StreamFault::Write)
    } else {
        0
    }
}

fn cannot_open(rt: &HostRuntime, file: &str, cause: &str) -> u8 {
    let _ = eprintln!(rt; "tctool: cannot open {file}");
    explain(rt, file, cause);
    3
}

// Writes a second line with the file and the cause, but only to a terminal: a program that reads standard
// error gets one line.
fn explain(rt: &HostRuntime, file: &str, cause: &str) {
    if !rt.stderr().is_terminal() {
        return;
    }
    let name = if file == "-" { "standard input" } else { file };
    let _ = eprintln!(rt; "tctool: {name}: {cause}");
}

fn run(rt: &HostRuntime, options: &Options) -> u8
    requires { IsInRange options.now.task }
{
    if options.file == "-" {
        return tell(rt, rt.stdin(), None, options);
    }
    match File::open(rt, options.file) {
        Ok(file) => tell(rt, &file, Some(&file), options),
        Err(error) => cannot_open(rt, options.file, reason(error.kind())),
    }
}

// Returns the length of a file whose end can be found.
fn length_of(file: Option<&File>) -> Option<u64> {
    let mut file = file?;
    file.seek(SeekFrom::End(0)).ok()
}

fn tell<R: Read + Drop>(rt: &HostRuntime, input: R, file: Option<&File>, options: &Options) -> u8
    requires { IsInRange options.now.task }
{
    let mut reader = Noting::new(Reader::new(input));
    let mut writer = Writer::new(io::writer(rt));
    let mut cause = "";
    let note = Note::new();
    let dumped = dump::dump(
        rt.alloc(),
        &mut reader,
        &mut writer,
        options,
        &mut cause,
        &note,
    );
    let mut errors = Writer::new(rt.stderr());
    let status = ending(&dumped, &mut errors);
    if let Some(kind) = reader.failed() {
        explain(rt, options.file, reason(kind));
    } else if !cause.is_empty() {
        let _ = eprintln!(rt; "tctool: {cause}");
    } else if dumped.is_ok() {
        let stopped = !reader.has_ended();
        let length = if stopped { length_of(file) } else { None };
        let _ = note.tell(stopped, length, &mut errors);
    }
    status
}
