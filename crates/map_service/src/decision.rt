// The assembler's table: a segment of an open MAP against the open part there.

ghost use Rattle.std.specs.Prelude.{◌≡◌, true, Some, option_copied, nat_lt, if◌then◌else◌};
ghost use Rattle.map_service.specs.Packets.{packets_in};
ghost use Rattle.map_service.specs.AssemblerTable.{interruption, cell, alone_packets, hands_out_cell};
ghost use Rattle.map_service.specs.Decision.{outcome_of, Fits};

use crate::dropped::Dropped;
use crate::limits::Limits;
use crate::packets::fault_of_alone;
use tc_frame::SegmentFlags;

/// What to do with a segment's data, wherever the open part is kept.
#[derive(Clone, Copy, Debug, PartialEq, Eq)]
pub enum Action {
    /// Nothing is kept or delivered, and no part is open afterwards.
    Close,
    /// The data are whole packets (one, if there is no blocking), which are delivered. No part is
    /// open afterwards.
    HandOut,
    /// The data become the open part.
    Begin,
    /// The data are added to the open part.
    Add,
    /// The data are added to the open part, which is delivered if `fault_of_one` finds no fault in
    /// it. No part is open afterwards.
    End,
}

/// The cell of a segment: what to do, and what is dropped apart from a part that is ended.
#[derive(Clone, Copy, Debug, PartialEq, Eq)]
pub struct Decision {
    pub action: Action,
    pub dropped: Option<Dropped>,
}

// The open part and the data are dropped.
fn closing(cause: Dropped) -> Decision
    ensures { result ≡ record { action = Action.Close; dropped = Some cause } }
{
    Decision {
        action: Action::Close,
        dropped: Some(cause),
    }
}

// This action, unless there would be more octets than a packet may have.
fn kept(limits: &Limits, len: usize, action: Action, dropped: Option<Dropped>) -> Decision
    ensures { result ≡ if nat_lt limits.now.max_packet len
        then record { action = Action.Close; dropped = Some Dropped.TooLong }
        else record { action = action; dropped = dropped } }
{
    if limits.is_too_long(len) {
        return closing(Dropped::TooLong);
    }
    Decision { action, dropped }
}

// What a segment flagged first or alone drops: the open part.
pub(crate) fn interruption(part: Option<&[u8]>) -> Option<Dropped>
    ensures { result ≡ interruption (option_copied part.entry) }
{
    match part {
        Some(_) => Some(Dropped::Interrupted),
        None => None,
    }
}

/// Decides what to do with a segment's data on an open MAP, given the open part.
#[inline(always)]
#[tactic(auto, using(crate::proofs::Handed::handed_out, crate::proofs::Handed::alone_packets_are))]
pub fn decide(limits: &Limits, flags: SegmentFlags, part: Option<&[u8]>, octets: &[u8]) -> Decision
    ensures outcome { outcome_of limits.now result (option_copied part.entry) octets.now
        ≡ cell limits.now flags (option_copied part.entry) octets.now }
    ensures handed { result.action ≡ Action.HandOut
        → (result.dropped ≡ interruption (option_copied part.entry))
        × (packets_in octets.now ≡ alone_packets limits.now octets.now) }
    ensures alone { result.action ≡ Action.HandOut → hands_out_cell limits.now flags octets.now ≡ true }
    ensures fits { Fits limits.now.max_packet result.action (option_copied part.entry) octets.now }
{
    match (flags, part) {
        (SegmentFlags::Alone, _) => match fault_of_alone(limits, octets) {
            Some(cause) => closing(cause),
            None => Decision {
                action: Action::HandOut,
                dropped: interruption(part),
            },
        },
        (SegmentFlags::First, _) => kept(limits, octets.len(), Action::Begin, interruption(part)),
        (SegmentFlags::Continuing, None) | (SegmentFlags::Last, None) => {
            closing(Dropped::NoBeginning)
        }
        (SegmentFlags::Continuing, Some(begun)) => {
            kept(limits, begun.len() + octets.len(), Action::Add, None)
        }
        (SegmentFlags::Last, Some(begun)) => {
            kept(limits, begun.len() + octets.len(), Action::End, None)
        }
    }
}
