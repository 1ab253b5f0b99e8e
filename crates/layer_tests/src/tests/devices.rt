// Each call once, over readers and writers of std and over some that fail. The octets and the lines are
// worked by hand.

ghost use Rattle.std.specs.Prelude.{◌≡◌, [], None, Some};
ghost use Rattle.listings.specs.Filters.{keeps_frame};

use super::common::equal;
use cop1::Farm;
use listings::{
    Begins, ControlWords, Cutter, Filter, FrameCutter, FrameLength, FrameListing, FramesOf,
    FromFirst, Kept, Listing, MapListing, OneMap, Only, PacketListing, PacketsOf, RefusalListing,
    ReportListing, TelemetryListing, TelemetryOf, Totals, list_stream,
};
use octets::{Splitter, remove_front};
use space_packet::Packets;
use std::alloc::Global;
use std::io;
use std::io::{ErrorKind, Read, Write};
use std::process::Abort;
use streams::{Call, DeviceLog, Reader, Sink, Source, StreamFault, Writer, write_all};
use tc_frame::{Checked, Unchecked};
use tm_link::TmFault;

const UNLOCK: [u8; 6] = [0x30, 0x01, 0x08, 0x05, 0x00, 0x00];

const DATA: [u8; 13] = [
    0x00, 0x01, 0x08, 0x0c, 0x00, 0xc4, 0x10, 0x05, 0xc0, 0x00, 0x00, 0x00, 0xaa,
];

const TELEMETRY: [u8; 20] = [
    0x00, 0x11, 0x00, 0x00, 0x18, 0x00, 0x00, 0x05, 0xc0, 0x00, 0x00, 0x00, 0xaa, 0x00, 0x01, 0x08,
    0x00, 0x00, 0xc1, 0xcb,
];

// Telemetry frames of 20 octets.
struct Twenty;

impl FrameLength for Twenty {
    ghost payload = { 8 };
}

fn is_listed<S: Cutter + Drop, C: Listing<S> + Drop>(
    rt: &impl Abort,
    alloc: Global,
    octets: &[u8],
    cutter: S,
    listing: C,
    good: bool,
    text: &str,
)
    requires held { S.held cutter ≡ [] }
    requires going { S.failure cutter ≡ None }
{
    let mut written = Vec::new(alloc);
    let result = list_stream(
        alloc,
        &mut Reader::new(octets),
        &mut Writer::new(&mut written),
        cutter,
        listing,
    );
    let listed = result.expect(rt, "lines");
    equal(rt, &listed.all_good, &good);
    equal(rt, &listed.octets, &(octets.len() as u64));
    equal(rt, &written.as_slice(), &text.as_bytes());
}

#[test]
fn each_listing(rt: HostRuntime) {
    lists_frames(&rt, rt.alloc());
    lists_data(&rt, rt.alloc());
    lists_telemetry(&rt, rt.alloc());
    lists_reports(&rt, rt.alloc());
}

fn lists_frames(rt: &impl Abort, alloc: Global) {
    let unchecked = Splitter::<Unchecked>::new(alloc);
    let line = "1 BC scid=1 vcid=2 unlock\n";
    is_listed(rt, alloc, &UNLOCK, unchecked, FrameListing, true, line);
    let checked = Splitter::<Checked>::new(alloc);
    let line = "1 invalid 5 Length\n";
    is_listed(rt, alloc, &UNLOCK, checked, RefusalListing, false, line);
    let farm = Farm::new(254, 0).unwrap();
    let unchecked = Splitter::<Unchecked>::new(alloc);
    let line = "1 AD 0 accepted Open vr=1 l=0 w=0 t=0 b=0\n";
    is_listed(rt, alloc, &DATA, unchecked, farm, true, line);
}

fn lists_data(rt: &impl Abort, alloc: Global) {
    let packets = MapListing::new(alloc, 254, 0, false);
    let unchecked = Splitter::<Unchecked>::new(alloc);
    let line = "packet 4 1005C0000000AA\n";
    is_listed(rt, alloc, &DATA, unchecked, packets, true, line);
    let splitter = Splitter::<Packets>::new(alloc);
    let packets = PacketListing::new();
    let line = "1 TC secondary=0 apid=5 flags=3 count=0 gap=- data=AA\n";
    is_listed(rt, alloc, &DATA[6..], splitter, packets, true, line);
}

fn lists_telemetry(rt: &impl Abort, alloc: Global) {
    let frames = TelemetryListing::<Twenty>::new(alloc, 20, false).expect(rt, "a listing");
    let cutter = FrameCutter::<Twenty>::new(alloc, 20);
    let lines = "1 scid=1 vcid=0 mc=0 vc=0 pointer=0 ocf=01080000 gap=-\n\
                 packet 0005C0000000AA\n";
    is_listed(rt, alloc, &TELEMETRY, cutter, frames, true, lines);
}

fn lists_reports(rt: &impl Abort, alloc: Global) {
    let frames = TelemetryListing::<Twenty>::new(alloc, 20, true).expect(rt, "a listing");
    let cutter = FrameCutter::<Twenty>::new(alloc, 20);
    let lines = "1 scid=1 vcid=0 mc=0 vc=0 pointer=0 ocf=01080000 gap=-\n\
                 report vcid=2 vr=0 l=0 w=0 t=0 b=0 status=0 rf=0 lock=0\n\
                 packet 0005C0000000AA\n";
    is_listed(rt, alloc, &TELEMETRY, cutter, frames, true, lines);
    let words = Splitter::<ControlWords>::new(alloc);
    let lines = "1 report vcid=2 vr=0 l=0 w=0 t=0 b=0 status=0 rf=0 lock=0\n\
                 2 invalid 6 Short\n";
    is_listed(
        rt,
        alloc,
        &TELEMETRY[14..19],
        words,
        ReportListing,
        false,
        lines,
    );
}

// The telecommand frames of virtual channel 3.
struct ThirdChannel;

impl Kept for ThirdChannel {
    ghost keeps = { keeps_frame None (Some 3) };
}

// Lists one channel, one MAP, or from a first number. Records of another channel or MAP have no line, and are
// good.
#[test]
fn listings_of_a_part(rt: HostRuntime) {
    lists_a_channel(&rt, rt.alloc());
    lists_from_the_first(&rt, rt.alloc());
    keeps_its_own(&rt);
}

fn lists_a_channel(rt: &impl Abort, alloc: Global) {
    let filter = FramesOf {
        scid: None,
        vcid: Some(3),
    };
    let frames = Only::<FrameListing, FramesOf, ThirdChannel>::new(FrameListing, filter);
    let unchecked = Splitter::<Unchecked>::new(alloc);
    is_listed(rt, alloc, &UNLOCK, unchecked, frames, true, "");
    let packets = OneMap::new(MapListing::new(alloc, 254, 0, false), Some(5));
    let unchecked = Splitter::<Unchecked>::new(alloc);
    is_listed(rt, alloc, &DATA, unchecked, packets, true, "");
}

fn lists_from_the_first(rt: &impl Abort, alloc: Global) {
    let mut farm = Farm::new(254, 9).unwrap();
    farm.begin(100);
    equal(rt, &farm.vr(), &100);
    let unchecked = Splitter::<Unchecked>::new(alloc);
    let line = "1 AD 0 accepted Open vr=1 l=0 w=0 t=0 b=0\n";
    let frames = FromFirst::new(farm, true);
    is_listed(rt, alloc, &DATA, unchecked, frames, true, line);
}

fn keeps_its_own(rt: &impl Abort) {
    let frames = FramesOf {
        scid: Some(1),
        vcid: Some(2),
    };
    equal(rt, &frames.keeps(&UNLOCK), &true);
    let telemetry = TelemetryOf {
        scid: Some(1),
        vcid: Some(1),
    };
    equal(rt, &telemetry.keeps(&TELEMETRY), &false);
    let packets = PacketsOf { apid: 5 };
    equal(rt, &packets.keeps(&DATA[6..]), &true);
}

#[test]
fn a_cutter_of_frames(rt: HostRuntime) {
    cuts_one(&rt, &mut FrameCutter::<Twenty>::new(rt.alloc(), 20));
}

fn cuts_one(rt: &impl Abort, cutter: &mut FrameCutter<Twenty>) {
    equal(rt, &cutter.feed(&TELEMETRY), &Ok(()));
    equal(rt, &cutter.feed(&UNLOCK), &Ok(()));
    assert!(rt; matches!(cutter.next(), Some(Ok(frame)) if frame == TELEMETRY.as_slice()));
    assert!(rt; cutter.next().is_none());
    equal(rt, &cutter.finish(), &Err(TmFault::Length));
}

#[test]
fn texts_and_logs(rt: HostRuntime) {
    let mut written = Vec::new(rt.alloc());
    let result = write_all(&mut Writer::new(&mut written), b"unlock");
    equal(&rt, &result, &Ok(()));
    equal(&rt, &written.as_slice(), &b"unlock".as_slice());
    let log = DeviceLog::new().then(&Call::Moved(b"unlock"));
    let _ = log.then(&Call::Failed);
    lists_nowhere(&rt, rt.alloc());
}

fn lists_nowhere(rt: &impl Abort, alloc: Global) {
    let mut none = [0u8; 0];
    let result = list_stream(
        alloc,
        &mut Reader::new(UNLOCK.as_slice()),
        &mut Writer::new(none.as_mut_slice()),
        Splitter::<Unchecked>::new(alloc),
        FrameListing,
    );
    equal(rt, &result, &Err(StreamFault::Write));
}

// Counts totals over lines in which a write ends within a word.
#[test]
fn totals_of_two_writes(rt: HostRuntime) {
    let mut totals = Totals::new(rt.alloc());
    let first = write_all(&mut totals, b"1 AD scid=1 vci");
    equal(&rt, &first, &Ok(()));
    let second = write_all(&mut totals, b"d=2 n=0\n2 AD scid=1 vcid=3 n=1\n");
    equal(&rt, &second, &Ok(()));
    let text = totals.lines(2, 26).expect(&rt, "totals");
    let lines = "records 2\noctets 26\nAD 2\nchannel=1/2 1\nchannel=1/3 1\n";
    equal(&rt, &text.as_bytes(), &lines.as_bytes());
}

// A reader and a writer that move at most three octets in a call, and fail in the call after `calls_left`
// calls.
#[derive(Drop)]
struct Device {
    octets: Vec<u8>,
    calls_left: usize,
}

impl Device {
    // Returns whether this call fails.
    fn fails(&mut self) -> bool {
        let fails = self.calls_left == 0;
        self.calls_left = self.calls_left.wrapping_sub(1);
        fails
    }
}

impl Read for Device {
    fn read(&mut self, piece: &mut [u8]) -> io::Result<usize> {
        if self.fails() {
            return Err(io::Error::from(ErrorKind::PermissionDenied));
        }
        let most = piece.len().min(3).min(self.octets.len());
        piece[..most].copy_from_slice(&self.octets[..most]);
        remove_front(&mut self.octets, most);
        Ok(most)
    }
}

impl Write for Device {
    fn write(&mut self, text: &[u8]) -> io::Result<usize> {
        if self.fails() {
            return Err(io::Error::from(ErrorKind::StorageFull));
        }
        let count = text.len().min(3);
        self.octets.extend_from_slice(&text[..count])?;
        Ok(count)
    }

    fn flush(&mut self) -> io::Result<()> {
        Ok(())
    }
}

// The answer is that of the inner reader or writer: the number of octets, or its error.
#[test]
fn readers_and_writers_of_std(rt: HostRuntime) {
    let octets = Vec::from_slice(rt.alloc(), b"unlock").expect(&rt, "octets");
    let mut reader = Reader::new(Device {
        octets,
        calls_left: 2,
    });
    reads(&rt, &mut reader);
    let octets = Vec::new(rt.alloc());
    let mut device = Device {
        octets,
        calls_left: 1,
    };
    writes(&rt, &mut Writer::new(&mut device));
    equal(&rt, &device.octets.as_slice(), &b"unlock".as_slice());
}

fn reads(rt: &impl Abort, reader: &mut Reader<Device>) {
    let mut piece = [0; 4];
    for (answer, octets) in [
        (Ok(3), b"unl\0"),
        (Ok(3), b"ock\0"),
        (Err(ErrorKind::PermissionDenied), b"ock\0"),
        (Ok(0), b"ock\0"),
    ] {
        equal(rt, &without_note(reader.read(&mut piece)), &answer);
        equal(rt, &piece, octets);
    }
    assert!(rt; reader.get_ref().octets.is_empty());
}

fn writes(rt: &impl Abort, writer: &mut Writer<&mut Device>) {
    for (text, answer) in [
        (&b"unlock"[..], Ok(3)),
        (b"ock", Err(ErrorKind::StorageFull)),
        (b"ock", Ok(3)),
    ] {
        equal(rt, &without_note(writer.write(text)), &answer);
    }
    equal(rt, &writer.get_ref().octets.len(), &6);
}

fn without_note(answer: io::Result<usize>) -> Result<usize, ErrorKind> {
    match answer {
        Ok(count) => Ok(count),
        Err(error) => Err(error.kind()),
    }
}

#[test]
fn texts_of_faults(rt: HostRuntime) {
    for (fault, text) in [
        (StreamFault::Read, "read failed"),
        (StreamFault::Write, "write failed"),
        (StreamFault::Memory, "no memory"),
        (StreamFault::TooLong, "input too long"),
    ] {
        let said = format!(in rt.alloc(); "{fault}").expect(&rt, "a text");
        equal(&rt, &said.as_str(), &text);
    }
}
