// A receiver that begins at the first number that arrives.

ghost use Rattle.std.specs.Prelude.{◌≡◌, ℕ};
ghost use Rattle.tc_frame.specs.Layout.{body_view};
ghost use Rattle.tc_frame.specs.Decoding.{frame_at};
ghost use Rattle.tc_frame.specs.Splitter.{check_if};
ghost use Rattle.listings.specs.FirstNumber.{Awaiting, farm_begun, number_of_body, number_in, heard, from_first};

use crate::listing::Listing;
use crate::record_number::RecordNumber;
use crate::text::Text;
use cop1::{Farm, FarmFields};
use octets::Splitter;
use std::alloc::AllocError;
use std::marker::Model;
use tc_frame::{Body, Check, Command, FrameLayout, TcFault, check_if, decode};

/// A listing with a receiver that may begin at another number.
pub trait Begins {
    ghost begun: { Self → ℕ → Self };

    /// Makes the receiver expect this number, and changes nothing else.
    fn begin(&mut self, vr: u8)
        ensures { self.new ≡ begun self.old vr };
}

impl Begins for Farm {
    ghost begun = { farm_begun };

    fn begin(&mut self, vr: u8) {
        *self = Farm::restore(FarmFields {
            vr,
            ..self.fields()
        })
        .unwrap();
    }
}

/// A listing of frames. On request, its receiver begins at the number of the first Type-AD frame, or
/// of a Set V(R) before it.
#[derive(Drop)]
pub struct FromFirst<C> {
    listing: C,
    awaits: bool,
}

impl<C> Model for FromFirst<C> {
    ghost Value = { Awaiting C };

    ghost view = { λ l. record { awaits = l.awaits; kept = l.listing } };
}

impl<C: Begins> FromFirst<C> {
    /// Creates a listing that has seen no frame. Its receiver begins so if `awaits` is true.
    pub fn new(listing: C, awaits: bool) -> Self
        ensures { result ≡ record { awaits = awaits; kept = listing } }
    {
        FromFirst { listing, awaits }
    }

    // Makes a receiver that awaits a number begin at the record's number, if the record has one.
    fn hear(&mut self, check: Check, octets: &[u8])
        ensures { self.new ≡ heard C.begun check self.old octets.now }
    {
        if !self.awaits {
            return;
        }
        if let Some(number) = number_in(check, octets) {
            self.listing.begin(number);
            self.awaits = false;
        }
    }
}

// Returns the number at which a receiver begins at this record.
fn number_in(check: Check, octets: &[u8]) -> Option<u8>
    ensures { result ≡ number_in (frame_at check octets.now) }
{
    match decode(octets, check) {
        Ok(frame) => number_of_body(&frame.body),
        Err(_) => None,
    }
}

fn number_of_body(body: &Body) -> Option<u8>
    ensures { result ≡ number_of_body (body_view body.now) }
{
    match body {
        Body::Ad { n, .. } => Some(*n),
        Body::Bc(Command::SetVr(vr)) => Some(*vr),
        Body::Bd { .. } | Body::Bc(Command::Unlock) => None,
    }
}

impl<const CHECKED: bool, C> Listing<Splitter<FrameLayout<CHECKED>>> for FromFirst<C>
where
    C: Listing<Splitter<FrameLayout<CHECKED>>> + Begins,
{
    ghost lines = { from_first C.begun (check_if CHECKED) C.lines };

    #[inline(always)]
    fn take(
        &mut self,
        text: &mut Text,
        index: &RecordNumber,
        octets: &[u8],
    ) -> Result<bool, AllocError> {
        self.hear(check_if(CHECKED), octets);
        self.listing.take(text, index, octets)
    }

    fn refuse(text: &mut Text, index: &RecordNumber, fault: TcFault) -> Result<(), AllocError> {
        C::refuse(text, index, fault)
    }
}
