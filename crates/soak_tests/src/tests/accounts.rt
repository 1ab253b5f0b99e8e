// The memory that values request and release. tools/accounts preloads a library that notes the memory at each
// line on standard error that begins with 'account', and compares the notes.

use super::pair::Pair;
use cop1::Fop;
use map_service::{Assembler, Limits};
use nodes::{Config, Ground, Spacecraft};
use octets::Splitter;
use space_packet::Packets;
use std::alloc::Global;
use std::process::Abort;
use tc_frame::{Segment, SegmentFlags, SegmentHeader};
use tc_link::Sim;
use tm_link::{Extractor, TmBuilder};

fn notes(rt: &impl Eprint, line: &str) {
    let _ = eprintln!(rt; "{line}");
}

// Prints the line for the memory before a value is made, and the line of this name while the value lives.
fn keeps<T: Drop, F: FnOnce() -> T>(rt: &impl Eprint, line: &str, make: F)
    requires { F.IsAlwaysCallable make }
{
    notes(rt, "account before");
    let _made = make();
    notes(rt, line);
}

// Units of 8 octets.
#[test]
fn senders(rt: HostRuntime) {
    for (width, line) in [
        (2, "account Fop::new width 2"),
        (254, "account Fop::new width 254"),
    ] {
        keeps(&rt, line, || {
            Fop::<u64>::new(rt.alloc(), width, 1, 3, 10).expect(&rt, "a sender")
        });
    }
}

#[test]
fn cutters_and_builders(rt: HostRuntime) {
    let alloc = rt.alloc();
    keeps(&rt, "account Splitter::new", || {
        Splitter::<Packets>::new(alloc)
    });
    keeps(&rt, "account TmBuilder::new", || {
        TmBuilder::new(alloc, 1, 0, 2048).expect(&rt, "a builder")
    });
    keeps(&rt, "account Extractor::new", || {
        Extractor::new(alloc).expect(&rt, "an extractor")
    });
}

fn takes_parts(rt: &impl Abort, assembler: &mut Assembler, segments: &[(SegmentFlags, u8)]) {
    for (flags, map) in segments {
        let header = SegmentHeader {
            flags: *flags,
            map: *map,
        };
        let segment = Segment {
            header,
            payload: &[0x10],
        };
        assert!(rt; assembler.take(&segment).is_ok());
    }
}

fn keeps_parts(
    rt: &(impl Abort + Eprint),
    alloc: Global,
    max_packet: u32,
    segments: &[(SegmentFlags, u8)],
    line: &str,
) {
    let limits = Limits {
        part: 1016,
        max_packet,
        maps: u64::MAX,
        blocking: false,
    };
    let mut assembler = Assembler::new(alloc, limits);
    keeps(rt, line, || takes_parts(rt, &mut assembler, segments));
}

#[test]
fn open_parts(rt: HostRuntime) {
    let opened = [(SegmentFlags::First, 63)];
    let closed = [
        (SegmentFlags::First, 62),
        (SegmentFlags::First, 63),
        (SegmentFlags::Last, 62),
        (SegmentFlags::Last, 63),
    ];
    for (max_packet, segments, line) in [
        (7, &opened[..], "account open part max_packet 7"),
        (65_542, &opened[..], "account open part max_packet 65542"),
        (7, &closed[..], "account two closed parts max_packet 7"),
        (
            65_542,
            &closed[..],
            "account two closed parts max_packet 65542",
        ),
    ] {
        keeps_parts(&rt, rt.alloc(), max_packet, segments, line);
    }
}

fn ground(rt: &(impl Abort + Eprint), alloc: Global, config: &Config, line: &str) {
    assert!(rt; config.fault().is_none());
    keeps(
        rt,
        line,
        || Ground::new(alloc, config).expect(rt, "a ground"),
    );
}

#[test]
fn grounds(rt: HostRuntime) {
    for (width, queue_slots, line) in [
        (2, 1, "account Ground::new width 2 queue_slots 1"),
        (2, 2, "account Ground::new width 2 queue_slots 2"),
        (2, 65_535, "account Ground::new width 2 queue_slots 65535"),
        (
            254,
            65_535,
            "account Ground::new width 254 queue_slots 65535",
        ),
    ] {
        let config = Config {
            width,
            window: 1,
            queue_slots,
            ..Config::default()
        };
        ground(&rt, rt.alloc(), &config, line);
    }
}

fn spacecraft(rt: &(impl Abort + Eprint), alloc: Global, config: &Config, line: &str) {
    assert!(rt; config.fault().is_none());
    keeps(rt, line, || {
        Spacecraft::new(alloc, config).expect(rt, "a spacecraft")
    });
}

#[test]
fn spacecrafts(rt: HostRuntime) {
    for (ready_slots, bypass_slots, line) in [
        (1, 1, "account Spacecraft::new ready_slots 1 bypass_slots 1"),
        (
            64,
            1,
            "account Spacecraft::new ready_slots 64 bypass_slots 1",
        ),
        (
            64,
            64,
            "account Spacecraft::new ready_slots 64 bypass_slots 64",
        ),
    ] {
        let config = Config {
            ready_slots,
            bypass_slots,
            ..Config::default()
        };
        spacecraft(&rt, rt.alloc(), &config, line);
    }
}

#[test]
fn links(rt: HostRuntime) {
    let config = Config::default();
    ground(&rt, rt.alloc(), &config, "account Ground::new");
    spacecraft(&rt, rt.alloc(), &config, "account Spacecraft::new");
    keeps(&rt, "account Sim::new", || {
        Sim::new(rt.alloc(), config).expect(&rt, "a link")
    });
}

fn splits(rt: &impl Abort, splitter: &mut Splitter<Packets>, octets: &[u8]) {
    for _ in 0..10_000 {
        splitter.feed(octets).expect(rt, "room");
        assert!(rt; matches!(splitter.next(), Some(Ok(_))));
        assert!(rt; splitter.next().is_none());
    }
}

// Feeds 10,000 packets of 100 octets, each of which is delivered.
#[test]
fn a_splitter_for_ever(rt: HostRuntime) {
    let packet = super::pair::command(&rt, rt.alloc(), 100, 0);
    let mut splitter = Splitter::<Packets>::new(rt.alloc());
    notes(&rt, "account before");
    splits(&rt, &mut splitter, packet.as_slice());
    notes(&rt, "account a splitter for ever");
}

// Queues 10,000 packets of 100 octets on board, sends each, and takes it on the ground.
#[test]
fn telemetry_for_ever(rt: HostRuntime) {
    let mut pair = Pair::new(&rt, rt.alloc(), &Config::default());
    notes(&rt, "account before");
    for count in 0..10_000 {
        pair.queues(&rt, rt.alloc(), 100, count);
        for _ in 0..3 {
            let _ = pair.hears(&rt);
        }
        pair.takes(&rt, rt.alloc(), 100, count);
    }
    notes(&rt, "account telemetry for ever");
}

// Sends 10,000 packets of 3,000 octets in sequence, and as many of 100 octets by bypass, and takes each on
// board.
#[test]
fn commands_for_ever(rt: HostRuntime) {
    let mut pair = Pair::new(&rt, rt.alloc(), &Config::default());
    notes(&rt, "account before");
    pair.begins(&rt);
    for count in 0..10_000 {
        pair.carries(&rt, rt.alloc(), count);
    }
    notes(&rt, "account commands for ever");
}
