// What a program in C reads from its nodes.

ghost use Rattle.std.specs.Prelude.{◌≡◌, Some};
ghost use Rattle.sedgechisel_nodes.specs.Spacecraft.{board_reading_of, farm_mode_number};
ghost use Rattle.cop1.specs.Accepted.{accepted_beyond};
ghost use Rattle.nodes.specs.Ground.{known_on_board};
ghost use Rattle.sedgechisel_nodes.specs.Calls.{IsRead};
ghost use Rattle.sedgechisel_nodes.specs.Ground.{mode_number, reading_of};

use crate::handles::{GroundHandle, SpacecraftHandle};
use crate::room::write;
use bitflags::Flags;
use cop1::{FarmMode, FopMode};
use nodes::{Ground, Spacecraft};
use std::alloc::Global;

/// A reading of a ground.
#[repr(C)]
#[derive(Clone, Copy)]
pub struct GroundReading {
    /// The number of the session's submissions, which are numbered from 0. This number and the two below are
    /// modulo 2^64. An alert does not change them; beginning a session or setting V(S) makes them 0.
    pub submitted: u64,
    /// How many of the session's submissions, counted from the first, were sent whole, to the last segment.
    pub sent_whole: u64,
    /// How many of the session's submissions, counted from the first, are acknowledged whole, and are
    /// therefore on board.
    pub acknowledged_whole: u64,
    /// The number of segments that were submitted and are not acknowledged.
    pub outstanding: usize,
    /// How many outstanding segments wait to be sent for the first time.
    pub unsent: usize,
    /// How many outstanding segments are to be retransmitted.
    pub due: usize,
    /// How many bypass packets wait to be sent.
    pub bypassed: usize,
    /// The length of a telemetry frame in octets.
    pub frame_length: usize,
    /// The ticks that are left while the timer runs, otherwise 0.
    pub ticks: u16,
    /// The sender's state, of `sedge_fop_state` (232.1-B-2, 5.1).
    pub state: u8,
    /// V(S), the number of the next segment that is sent for the first time.
    pub vs: u8,
    /// NN(R), the number that the spacecraft was last known to expect.
    pub nn: u8,
    /// The transmission count, at least 1.
    pub count: u8,
}

pub(crate) fn number_of_mode(mode: FopMode) -> u8
    ensures { result ≡ mode_number mode }
{
    mode as u8 + 1
}

pub(crate) fn reading(node: &Ground) -> GroundReading
    ensures { result ≡ reading_of node.now }
{
    GroundReading {
        submitted: node.submitted(),
        sent_whole: node.sent_whole(),
        acknowledged_whole: node.acknowledged_whole(),
        outstanding: node.outstanding(),
        unsent: node.unsent(),
        due: node.due(),
        bypassed: node.bypassed(),
        frame_length: node.frame_length(),
        ticks: node.ticks().unwrap_or(0),
        state: number_of_mode(node.state()),
        vs: node.vs(),
        nn: node.nn(),
        count: node.count(),
    }
}

/// Reads the ground: how far its submissions have come; the sender's state, V(S), NN(R), transmission count
/// and timer; what is outstanding and what waits; and the length of a telemetry frame. The ground does not
/// change. Returns 0.
#[unsafe(no_mangle)]
pub extern "C" fn sedge_ground_read(
    alloc: Global,
    ground: &mut GroundHandle,
    read: &mut GroundReading,
) -> u8
    ensures { IsRead (λ s. Some (reading_of s)) ground.old.value ground.new.value result read.old read.new }
{
    read!(alloc, ground, read, |node| reading(&node))
}

/// A reading of a spacecraft: the length of a telemetry frame; the CLCW that the next one carries, with its
/// flags as the bits of the third octet (CCSDS 232.0-B-4, 4.2.1); the packets that wait; the receiver's
/// state; and the next frame's counts (CCSDS 132.0-B-3, 4.1.2). For C it is `struct
/// sedge_spacecraft_reading`.
#[repr(C)]
#[derive(Clone, Copy)]
pub struct BoardReading {
    /// The length of a telemetry frame in octets.
    pub frame_length: usize,
    /// How many packets of sequence-controlled frames wait to be taken.
    pub ready: usize,
    /// How many bypass packets wait to be taken.
    pub bypassed: usize,
    /// The fields of the CLCW that the next frame carries, as in struct `sedge_clcw`.
    pub status: u8,
    pub vcid: u8,
    pub flags: u8,
    pub farm_b: u8,
    pub value: u8,
    /// The receiver's state, of `sedge_farm_mode`.
    pub state: u8,
    /// The next frame's count on the master channel.
    pub mc_count: u8,
    /// The next frame's count on the virtual channel.
    pub vc_count: u8,
}

fn number_of_farm_mode(state: FarmMode) -> u8
    ensures { result ≡ farm_mode_number state }
{
    state as u8
}

pub(crate) fn board_reading(node: &Spacecraft) -> BoardReading
    ensures { result ≡ board_reading_of node.now }
{
    let word = node.control_word();
    let kept = node.kept_numbers();
    BoardReading {
        frame_length: node.frame_length(),
        ready: node.ready(),
        bypassed: node.bypassed(),
        status: word.status,
        vcid: word.vcid,
        flags: word.flags.bits(),
        farm_b: word.farm_b,
        value: word.value,
        state: number_of_farm_mode(node.state()),
        mc_count: kept.mc_count,
        vc_count: kept.vc_count,
    }
}

/// Reads the spacecraft: the length of a telemetry frame, how many packets wait, the CLCW that the next frame
/// carries, that frame's counts, and the receiver's state. The spacecraft does not change. Returns 0.
#[unsafe(no_mangle)]
pub extern "C" fn sedge_spacecraft_read(
    alloc: Global,
    spacecraft: &mut SpacecraftHandle,
    read: &mut BoardReading,
) -> u8
    ensures { IsRead (λ s. Some (board_reading_of s))
        spacecraft.old.value spacecraft.new.value result read.old read.new }
{
    read!(alloc, spacecraft, read, |node| board_reading(&node))
}

/// Writes how many of the segments that were sent and not acknowledged were accepted on board when a CLCW
/// with this value was made: the oldest ones (232.1-B-2, 5.1). The call still does so after an alert, until
/// V(S) is set or an initiation begins. But it uses only the numbers: after an alert that shows a broken
/// condition, nothing is known of these segments, whatever it writes. If V(S) is NN(R), there are no such
/// segments, and it writes 0 for every value. Returns 0, or `SEDGE_NODE_ABSENT` if V(S) is not NN(R) and the
/// value does not lie from NN(R) to V(S): nothing is then known of the segments.
#[unsafe(no_mangle)]
#[must_use]
pub extern "C" fn sedge_ground_accepted_beyond(
    alloc: Global,
    ground: &mut GroundHandle,
    value: u8,
    accepted: &mut u8,
) -> u8
    ensures { IsRead (λ s. accepted_beyond s.fop.nn s.fop.vs value)
        ground.old.value ground.new.value result accepted.old accepted.new }
{
    held!(
        alloc,
        ground,
        |node| write(node.accepted_beyond(value), accepted)
    )
}

/// Writes how many of the session's submissions, counted from the first, a CLCW with this value shows to be
/// on board whole: those that are acknowledged, and those whose segments were all accepted according to the
/// CLCW (232.1-B-2, 5.1). The call still does so after an alert. Returns 0, or `SEDGE_NODE_ABSENT` if nothing
/// is known: no session has begun, V(S) was set or an alert has shown a broken condition since, or V(S) is
/// not NN(R) and the value does not lie from NN(R) to V(S).
#[unsafe(no_mangle)]
#[must_use]
pub extern "C" fn sedge_ground_known_on_board(
    alloc: Global,
    ground: &mut GroundHandle,
    value: u8,
    whole: &mut u64,
) -> u8
    ensures { IsRead (λ s. known_on_board s value) ground.old.value ground.new.value result whole.old whole.new }
{
    held!(
        alloc,
        ground,
        |node| write(node.known_on_board(value), whole)
    )
}
