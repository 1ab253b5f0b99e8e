// Lists a stream of records, as a command requires.

ghost use Rattle.std.specs.Prelude.{◌≡◌, ◌+◌, ℕ, List, [], true, None};
ghost use Rattle.command_line.specs.Arguments.{IsInRange};
ghost use Rattle.listings.specs.Layouts.{rest_by, IsRefused};
ghost use Rattle.listings.specs.Listing.{fresh, text_of, summary_of};
ghost use Rattle.cop1.specs.Farm.{IsWidth};
ghost use Rattle.tc_frame.specs.Splitter.{check_if};
ghost use Rattle.listings.specs.Filters.{only};
ghost use Rattle.stream_commands.specs.Listed.{frames_work, is_listed, listed_lines, task_summary, ListsTask, StopsAt};
ghost use Rattle.stream_commands.specs.Listed.{work_lines, work_summary, WorkStops};

use crate::noted::{Note, Noted};
use crate::searched::list_searched;
use command_line::{Channel, MapPart, Part, Task};
use cop1::Farm;
use listings::{
    ControlWords, Cutter, Filter, FrameCutter, FrameLength, FrameListing, FramesOf, FromFirst,
    Kept, Listing, MapListing, OneMap, Only, PacketListing, PacketsOf, RefusalListing,
    ReportListing, Summary, TelemetryListing, TelemetryOf, WordsOf, list_stream,
};
use octets::Splitter;
use space_packet::Packets;
use std::alloc::Global;
use std::marker::Brand;
use streams::{Sink, Source, StreamFault};
use tc_frame::FrameLayout;

// Writes the lines that a command requires, as `list` describes, and returns what was listed.
pub(crate) fn list_lines<R: Source, W: Sink>(
    alloc: Global,
    reader: &mut R,
    writer: &mut W,
    task: Task,
    note: &Note,
) -> Result<Summary, StreamFault>
    requires range { IsInRange task }
    requires listed { is_listed task ≡ true }
    ensures { ListsTask R.given R.remaining R.failures R.has_ended W.taken_octets W.failures
        task result reader.old reader.new writer.old writer.new }
{
    match task {
        Task::Farm {
            check: true,
            width,
            vr,
            part,
        } => list_farm::<true, R, W>(alloc, reader, writer, task, note, width, vr, part),
        Task::Farm {
            check: false,
            width,
            vr,
            part,
        } => list_farm::<false, R, W>(alloc, reader, writer, task, note, width, vr, part),
        Task::Map {
            check: true,
            width,
            vr,
            blocking,
            part,
        } => list_maps::<true, R, W>(alloc, reader, writer, task, note, width, vr, blocking, part),
        Task::Map {
            check: false,
            width,
            vr,
            blocking,
            part,
        } => list_maps::<false, R, W>(alloc, reader, writer, task, note, width, vr, blocking, part),
        Task::Tc {
            check: true,
            channel,
        } => list_on::<true, _, R, W>(alloc, reader, writer, task, note, FrameListing, channel),
        Task::Tc {
            check: false,
            channel,
        } => list_on::<false, _, R, W>(alloc, reader, writer, task, note, FrameListing, channel),
        Task::Tm {
            length,
            report,
            channel,
        } => list_telemetry::<Brand, R, W>(
            alloc, reader, writer, task, note, length, report, channel,
        ),
        Task::Clcw { vcid } => list_words(alloc, reader, writer, task, note, vcid),
        Task::Check { channel } => {
            list_on::<true, _, R, W>(alloc, reader, writer, task, note, RefusalListing, channel)
        }
        Task::Resync { listed, scid, vcid } => {
            list_searched(alloc, reader, writer, task, listed, scid, vcid)
        }
        Task::Packets { apid } => list_packets(alloc, reader, writer, task, note, apid),
        Task::Encode { .. } | Task::Sim | Task::Ground | Task::Spacecraft => unreachable!(),
    }
}

// The telecommand frames of every channel.
const EVERY_FRAME: FramesOf = FramesOf {
    scid: None,
    vcid: None,
};

// Returns the telecommand frames of a channel.
fn frames_of(channel: Channel) -> FramesOf
    ensures { result ≡ record { scid = channel.scid; vcid = channel.vcid } }
{
    FramesOf {
        scid: channel.scid,
        vcid: channel.vcid,
    }
}

// Lists what a receiver does with frames.
fn list_farm<const CHECKED: bool, R: Source, W: Sink>(
    alloc: Global,
    reader: &mut R,
    writer: &mut W,
    task: Task,
    note: &Note,
    width: u8,
    vr: u8,
    part: Option<Part>,
) -> Result<Summary, StreamFault>
    requires task { task ≡ Task.Farm CHECKED width vr part }
    requires width { IsWidth width }
    ensures { ListsTask R.given R.remaining R.failures R.has_ended W.taken_octets W.failures
        task result reader.old reader.new writer.old writer.new }
{
    let cutter = Splitter::<FrameLayout<CHECKED>>::new(alloc);
    let farm = Farm::new(width, vr).unwrap();
    match part {
        None => {
            note.receives(EVERY_FRAME);
            list_records(alloc, reader, writer, task, note, cutter, farm)
        }
        Some(part) => {
            let farm = FromFirst::new(farm, part.from_first);
            let frames = frames_of(part.channel);
            note.receives(frames);
            list_only::<Brand, _, _, _, R, W>(
                alloc, reader, writer, task, note, cutter, farm, frames,
            )
        }
    }
}

// Lists the packets from frames.
fn list_maps<const CHECKED: bool, R: Source, W: Sink>(
    alloc: Global,
    reader: &mut R,
    writer: &mut W,
    task: Task,
    note: &Note,
    width: u8,
    vr: u8,
    blocking: bool,
    part: Option<MapPart>,
) -> Result<Summary, StreamFault>
    requires task { task ≡ Task.Map CHECKED width vr blocking part }
    requires width { IsWidth width }
    ensures { ListsTask R.given R.remaining R.failures R.has_ended W.taken_octets W.failures
        task result reader.old reader.new writer.old writer.new }
{
    let cutter = Splitter::<FrameLayout<CHECKED>>::new(alloc);
    let packets = MapListing::new(alloc, width, vr, blocking);
    match part {
        None => {
            note.receives(EVERY_FRAME);
            list_records(alloc, reader, writer, task, note, cutter, packets)
        }
        Some(MapPart { part, map }) => {
            let packets = FromFirst::new(OneMap::new(packets, map), part.from_first);
            let frames = frames_of(part.channel);
            note.receives(frames);
            list_only::<Brand, _, _, _, R, W>(
                alloc, reader, writer, task, note, cutter, packets, frames,
            )
        }
    }
}

// Lists telemetry frames of this length, which `K` represents.
fn list_telemetry<K: FrameLength, R: Source, W: Sink>(
    alloc: Global,
    reader: &mut R,
    writer: &mut W,
    task: Task,
    note: &Note,
    size: u16,
    report: bool,
    channel: Option<Channel>,
) -> Result<Summary, StreamFault>
    requires task { task ≡ Task.Tm size report channel }
    requires size { size ≡ K.payload + 12 }
    ensures { ListsTask R.given R.remaining R.failures R.has_ended W.taken_octets W.failures
        task result reader.old reader.new writer.old writer.new }
{
    let Ok(frames) = TelemetryListing::<K>::new(alloc, size, report) else {
        return Err(StreamFault::Memory);
    };
    let cutter = FrameCutter::<K>::new(alloc, usize::from(size));
    match channel {
        None => list_records(alloc, reader, writer, task, note, cutter, frames),
        Some(Channel { scid, vcid }) => {
            let kept = TelemetryOf { scid, vcid };
            list_only::<Brand, _, _, _, R, W>(
                alloc, reader, writer, task, note, cutter, frames, kept,
            )
        }
    }
}

// Lists CLCWs.
fn list_words<R: Source, W: Sink>(
    alloc: Global,
    reader: &mut R,
    writer: &mut W,
    task: Task,
    note: &Note,
    vcid: Option<u8>,
) -> Result<Summary, StreamFault>
    requires task { task ≡ Task.Clcw vcid }
    ensures { ListsTask R.given R.remaining R.failures R.has_ended W.taken_octets W.failures
        task result reader.old reader.new writer.old writer.new }
{
    let cutter = Splitter::<ControlWords>::new(alloc);
    match vcid {
        None => list_records(alloc, reader, writer, task, note, cutter, ReportListing),
        Some(vcid) => {
            let kept = WordsOf { vcid };
            list_only::<Brand, _, _, _, R, W>(
                alloc,
                reader,
                writer,
                task,
                note,
                cutter,
                ReportListing,
                kept,
            )
        }
    }
}

// Lists space packets.
fn list_packets<R: Source, W: Sink>(
    alloc: Global,
    reader: &mut R,
    writer: &mut W,
    task: Task,
    note: &Note,
    apid: Option<u16>,
) -> Result<Summary, StreamFault>
    requires task { task ≡ Task.Packets apid }
    ensures { ListsTask R.given R.remaining R.failures R.has_ended W.taken_octets W.failures
        task result reader.old reader.new writer.old writer.new }
{
    let cutter = Splitter::<Packets>::new(alloc);
    let packets = PacketListing::new();
    match apid {
        None => list_records(alloc, reader, writer, task, note, cutter, packets),
        Some(apid) => {
            let kept = PacketsOf { apid };
            list_only::<Brand, _, _, _, R, W>(
                alloc, reader, writer, task, note, cutter, packets, kept,
            )
        }
    }
}

// Lists telecommand frames, only those of a channel if one is given.
fn list_on<const CHECKED: bool, C, R: Source, W: Sink>(
    alloc: Global,
    reader: &mut R,
    writer: &mut W,
    task: Task,
    note: &Note,
    listing: C,
    channel: Option<Channel>,
) -> Result<Summary, StreamFault>
where
    C: Listing<Splitter<FrameLayout<CHECKED>>> + Drop,
    requires lines { (octets : List ℕ) → listed_lines task octets
        ≡ work_lines (frames_work (check_if CHECKED) C.lines listing channel) octets }
    requires listed { (octets : List ℕ) → task_summary task octets
        ≡ work_summary (frames_work (check_if CHECKED) C.lines listing channel) octets }
    requires stops { (octets : List ℕ)
        → WorkStops (frames_work (check_if CHECKED) C.lines listing channel) octets → StopsAt task octets }
    ensures { ListsTask R.given R.remaining R.failures R.has_ended W.taken_octets W.failures
        task result reader.old reader.new writer.old writer.new }
{
    let cutter = Splitter::<FrameLayout<CHECKED>>::new(alloc);
    match channel {
        None => list_records(alloc, reader, writer, task, note, cutter, listing),
        Some(Channel { scid, vcid }) => {
            let frames = FramesOf { scid, vcid };
            list_only::<Brand, _, _, _, R, W>(
                alloc, reader, writer, task, note, cutter, listing, frames,
            )
        }
    }
}

// Lists the records that a filter keeps, which `K` represents.
fn list_only<K: Kept, S: Cutter + Drop, C: Listing<S> + Drop, F: Filter + Drop, R: Source, W: Sink>(
    alloc: Global,
    reader: &mut R,
    writer: &mut W,
    task: Task,
    note: &Note,
    cutter: S,
    listing: C,
    filter: F,
) -> Result<Summary, StreamFault>
    requires held { S.held cutter ≡ [] }
    requires going { S.failure cutter ≡ None }
    requires keeps { (octets : List ℕ) → F.keeps filter octets ≡ K.keeps octets }
    requires lines { (octets : List ℕ) → listed_lines task octets
        ≡ text_of (only K.keeps C.lines) S.layout (fresh listing octets) }
    requires listed { (octets : List ℕ) → task_summary task octets
        ≡ summary_of (only K.keeps C.lines) S.layout (fresh listing octets) }
    requires stops { (octets : List ℕ) → IsRefused S.layout (rest_by S.layout octets) → StopsAt task octets }
    ensures { ListsTask R.given R.remaining R.failures R.has_ended W.taken_octets W.failures
        task result reader.old reader.new writer.old writer.new }
{
    let listing = Only::<C, F, K>::new(listing, filter);
    list_records(alloc, reader, writer, task, note, cutter, listing)
}

// Lists the records of a stream as this task requires, and returns how the listing ends.
fn list_records<S: Cutter + Drop, C: Listing<S> + Drop, R: Source, W: Sink>(
    alloc: Global,
    reader: &mut R,
    writer: &mut W,
    task: Task,
    note: &Note,
    cutter: S,
    listing: C,
) -> Result<Summary, StreamFault>
    requires held { S.held cutter ≡ [] }
    requires going { S.failure cutter ≡ None }
    requires lines { (octets : List ℕ) → listed_lines task octets
        ≡ text_of C.lines S.layout (fresh listing octets) }
    requires listed { (octets : List ℕ) → task_summary task octets
        ≡ summary_of C.lines S.layout (fresh listing octets) }
    requires stops { (octets : List ℕ) → IsRefused S.layout (rest_by S.layout octets) → StopsAt task octets }
    ensures { ListsTask R.given R.remaining R.failures R.has_ended W.taken_octets W.failures
        task result reader.old reader.new writer.old writer.new }
{
    list_stream(alloc, reader, writer, cutter, Noted::new(listing, note))
}
