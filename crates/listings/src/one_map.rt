// The packets of one MAP.

ghost use Rattle.std.specs.Prelude.{◌≡◌, OnOk, IfOk, is_ok};
ghost use Rattle.tc_frame.specs.Layout.{body_view};
ghost use Rattle.tc_frame.specs.Decoding.{frame_at};
ghost use Rattle.tc_frame.specs.Splitter.{check_if};
ghost use Rattle.listings.specs.Filters.{is_asked};
ghost use Rattle.listings.specs.Text.{Appends};
ghost use Rattle.listings.specs.OneMap.{OneMapState, ListsAsAll, is_on, after_frame, one_map_begun, one_map_text, one_map_lines};

use crate::first_number::Begins;
use crate::lines::{push_invalid, push_refused};
use crate::listing::Listing;
use crate::maps::MapListing;
use crate::record_number::RecordNumber;
use crate::text::Text;
use octets::Splitter;
use std::alloc::AllocError;
use std::marker::Model;
use tc_frame::{Body, Check, FrameLayout, TcFault, check_if, decode};

/// Lists the packets from frames, of one MAP if it is given. The receiver takes the frames of all MAPs.
#[derive(Drop)]
pub struct OneMap {
    packets: MapListing,
    map: Option<u8>,
}

impl Model for OneMap {
    ghost Value = { OneMapState };

    ghost view = { λ l. record { map = l.map; packets = l.packets } };
}

impl OneMap {
    /// Creates a listing of what `packets` lists for the MAP, or for all MAPs.
    pub fn new(packets: MapListing, map: Option<u8>) -> Self
        ensures { result ≡ record { map = map; packets = packets } }
    {
        OneMap { packets, map }
    }

    // Returns whether a frame has no segment of another MAP.
    #[inline(always)]
    fn is_on(&self, body: &Body) -> bool
        ensures { result ≡ is_on self.now.map (body_view body.now) }
    {
        match body {
            Body::Ad { segment, .. } => is_asked(self.map, segment.header.map),
            Body::Bd { segment } => is_asked(self.map, segment.header.map),
            Body::Bc(_) => true,
        }
    }

    /// Takes a record, appends its lines, and returns whether the record is a frame.
    fn push_frame(
        &mut self,
        text: &mut Text,
        check: Check,
        index: &RecordNumber,
        octets: &[u8],
    ) -> Result<bool, AllocError>
        ensures text { Appends result text.old text.new
            (one_map_text self.old index.now (frame_at check octets.now)) }
        ensures state { OnOk result (self.new ≡ after_frame self.old (frame_at check octets.now)) }
        ensures good { IfOk result (λ good. good ≡ is_ok (frame_at check octets.now)) }
    {
        match decode(octets, check) {
            Ok(frame) if self.is_on(&frame.body) => {
                self.packets.push_body(text, index, frame.body)?;
                Ok(true)
            }
            Ok(frame) => {
                self.packets.pass(&frame.body);
                Ok(true)
            }
            Err(fault) => push_refused(text, index, fault.number(), fault.name()),
        }
    }
}

// Returns whether a MAP is the requested one; without a request each MAP is.
#[inline(always)]
fn is_asked(asked: Option<u8>, map: u8) -> bool
    ensures { result ≡ is_asked asked map }
{
    match asked {
        None => true,
        Some(asked) => map == asked,
    }
}

/// The listing of a MAP has the lines that a listing of all MAPs has for it, whatever arrives on the others.
pub fn law_of_one_map()
    ensures { ListsAsAll }
{}

impl Begins for OneMap {
    ghost begun = { one_map_begun };

    fn begin(&mut self, vr: u8) {
        self.packets.begin(vr);
    }
}

impl<const CHECKED: bool> Listing<Splitter<FrameLayout<CHECKED>>> for OneMap {
    ghost lines = { one_map_lines (check_if CHECKED) };

    fn take(
        &mut self,
        text: &mut Text,
        index: &RecordNumber,
        octets: &[u8],
    ) -> Result<bool, AllocError> {
        self.push_frame(text, check_if(CHECKED), index, octets)
    }

    fn refuse(text: &mut Text, index: &RecordNumber, fault: TcFault) -> Result<(), AllocError> {
        push_invalid(text, index, fault.number(), fault.name())
    }
}
