// The line of each TC frame that is refused, among frames that end with their check.

ghost use Rattle.std.specs.Prelude.{◌≡◌, ◌++◌, OnOk, IfOk, is_ok};
ghost use Rattle.listings.specs.Text.{Appends};
ghost use Rattle.listings.specs.RefusalLines.{refusal_lines};

use crate::lines::{push_invalid, push_refused};
use crate::listing::Listing;
use crate::record_number::RecordNumber;
use crate::text::Text;
use octets::Splitter;
use std::alloc::AllocError;
use std::marker::Model;
use tc_frame::{Check, Checked, TcFault, decode};

/// Lists the refused frames among frames that end with their FECF. Nothing is kept between two frames.
#[derive(Drop)]
pub struct RefusalListing;

impl Model for RefusalListing {
    ghost Value = { Unit {0} };

    ghost view = { λ l. tt };
}

impl Listing<Splitter<Checked>> for RefusalListing {
    ghost lines = { refusal_lines };

    #[inline(always)]
    fn take(
        &mut self,
        text: &mut Text,
        index: &RecordNumber,
        octets: &[u8],
    ) -> Result<bool, AllocError> {
        match decode(octets, Check::On) {
            Ok(_) => Ok(true),
            Err(fault) => push_refused(text, index, fault.number(), fault.name()),
        }
    }

    fn refuse(text: &mut Text, index: &RecordNumber, fault: TcFault) -> Result<(), AllocError> {
        push_invalid(text, index, fault.number(), fault.name())
    }
}
