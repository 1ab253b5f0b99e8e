// The uplink: packets, and the telecommand frames that carry them.

ghost use Rattle.std.specs.Prelude.{◌≡◌, ◌<◌, ◌++◌, IfOk, option_to_list, option_map};
ghost use Rattle.std.specs.Vec.{vec_len, vec_capacity};
ghost use Rattle.map_service.specs.Views.{packets_view};
ghost use Rattle.nodes.specs.CommandPackets.{slices_view};
ghost use Rattle.tm_link.specs.Extractor.{octets_of};

use super::World;
use super::accept::{make_room_for, record_accepted};
use crate::acceptance::acceptance_of;
use crate::fault::SimFault;
use crate::map_lists::{append_on, make_room};
use crate::refusal::answer_to_refusal;
use crate::reply::Reply;
use crate::up_frame::next_frame;
use nodes::Event;
use std::alloc::{AllocError, Global};

impl World {
    ghost use Rattle.std.specs.Prelude.{OnOk, OnErr, IsOkUnless};
    ghost use Rattle.simulated_link.specs.Events.{IsReplyTo, LetsHappen};
    ghost use Rattle.simulated_link.specs.World.{world_step};

    pub(crate) fn submit(&mut self, map: u8, octets: &[u8]) -> Result<Reply, SimFault>
        ensures { LetsHappen (Event.Submit map octets.entry) self.old self.new result }
    {
        let submission = match self.ground_node.prepare(map, octets) {
            Ok(submission) => submission,
            Err(fault) => return answer_to_refusal(fault),
        };
        let Ok(copy) = Vec::from_slice(self.alloc, octets) else {
            return Err(SimFault::Memory);
        };
        let Ok(packets) = copied(self.alloc, submission.packets()) else {
            return Err(SimFault::Memory);
        };
        if self.session.submissions.try_reserve(1).is_err()
            || make_room(&mut self.session.submitted, map, packets.len()).is_err()
        {
            return Err(SimFault::Memory);
        }
        self.ground_node.commit(submission);
        self.session.submissions.push_reserved((map, copy));
        append_on(&mut self.session.submitted, map, packets);
        Ok(Reply::Done)
    }

    pub(crate) fn bypass(&mut self, map: u8, octets: &[u8]) -> Result<Reply, SimFault>
        ensures { LetsHappen (Event.Bypass map octets.entry) self.old self.new result }
    {
        match self.ground_node.bypass(map, octets) {
            Ok(()) => Ok(Reply::Done),
            Err(fault) => answer_to_refusal(fault),
        }
    }

    pub(crate) fn send(&mut self) -> Result<Reply, SimFault>
        ensures reply { IfOk result (IsReplyTo self.old Event.Send) }
        ensures after { OnOk result (self.new ≡ (world_step self.old Event.Send).after) }
        ensures err { OnErr result (self.new ≡ self.old) }
        ensures memory { IsOkUnless result SimFault.Memory }
    {
        let Some(outgoing) = next_frame(self.alloc, &self.ground_node)? else {
            self.ground_node.advance();
            return Ok(Reply::Nothing);
        };
        if self.up.try_reserve(1).is_err() || self.session.sent.try_reserve(1).is_err() {
            return Err(SimFault::Memory);
        }
        self.ground_node.advance();
        self.up.push_back_reserved(outgoing.octets);
        push_some(&mut self.session.sent, outgoing.field);
        Ok(Reply::Sent(outgoing.copy))
    }

    pub(crate) fn up_deliver(&mut self) -> Result<Reply, SimFault>
        ensures { LetsHappen Event.UpDeliver self.old self.new result }
    {
        let Some(octets) = self.up.front() else {
            return Err(SimFault::NothingInTransit);
        };
        let Ok(arrival) = self.spacecraft.prepare(octets) else {
            return Err(SimFault::Memory);
        };
        let Ok(acceptance) = acceptance_of(self.alloc, &arrival) else {
            return Err(SimFault::Memory);
        };
        if make_room_for(&mut self.accepted, &mut self.session.delivered, &acceptance).is_err() {
            return Err(SimFault::Memory);
        }
        let received = self.spacecraft.commit(arrival);
        let _ = self.up.pop_front();
        record_accepted(&mut self.accepted, &mut self.session.delivered, acceptance);
        Ok(Reply::Up(received))
    }
}

// Returns a copy of each packet.
fn copied(alloc: Global, packets: &[&[u8]]) -> Result<Vec<Vec<u8>>, AllocError>
    ensures { IfOk result (λ copies. packets_view copies ≡ slices_view packets.now) }
{
    let mut copies = Vec::with_capacity(alloc, packets.len())?;
    for packet in packets {
        copies.push(Vec::from_slice(alloc, packet)?)?;
    }
    Ok(copies)
}

// Appends a field, if there is one, to a list. There must be room for it.
fn push_some(fields: &mut Vec<Vec<u8>>, field: Option<Vec<u8>>)
    requires { vec_len fields.old < vec_capacity fields.old }
    ensures items { octets_of fields.new.items
        ≡ octets_of fields.old.items ++ option_to_list (option_map (λ v. v.items) field) }
{
    if let Some(field) = field {
        fields.push_reserved(field);
    }
}
