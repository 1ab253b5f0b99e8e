// A listing of some of the records of a stream.

ghost use Rattle.std.specs.Prelude.{◌≡◌, ℕ, Bool, List, true};
ghost use Rattle.listings.specs.Filters.{only};

use crate::cutter::Cutter;
use crate::filters::Filter;
use crate::listing::Listing;
use crate::record_number::RecordNumber;
use crate::text::Text;
use std::alloc::AllocError;
use std::marker::{Brand, Model, PhantomData};

/// The records that are listed, which are known once the arguments are read. It is only for proofs:
/// `Brand` represents every choice.
pub trait Kept {
    ghost keeps: { List ℕ → Bool };
}

// It represents each choice in turn; a caller picks one.
impl Kept for Brand {
    ghost keeps = { λ octets. true };
}

/// Lists the records that a filter keeps. The listing inside it sees no other record.
#[derive(Drop)]
pub struct Only<C, F: Filter, K: Kept> {
    listing: C,
    filter: F,
    kept: PhantomData<K>,
}

impl<C, F: Filter, K: Kept> Model for Only<C, F, K> {
    ghost Value = { C };

    ghost view = { λ l. l.listing };

    ghost invariant = { λ l. (octets : List ℕ) → F.keeps l.filter octets ≡ K.keeps octets };
}

impl<C, F: Filter, K: Kept> Only<C, F, K> {
    /// Creates a listing of the records that this filter keeps.
    pub fn new(listing: C, filter: F) -> Self
        requires { (octets : List ℕ) → F.keeps filter octets ≡ K.keeps octets }
        ensures { result ≡ listing }
    {
        Only {
            listing,
            filter,
            kept: PhantomData,
        }
    }
}

impl<S: Cutter, C: Listing<S>, F: Filter, K: Kept> Listing<S> for Only<C, F, K> {
    ghost lines = { only K.keeps C.lines };

    #[inline(always)]
    fn take(
        &mut self,
        text: &mut Text,
        index: &RecordNumber,
        octets: &[u8],
    ) -> Result<bool, AllocError> {
        if !self.filter.keeps(octets) {
            return Ok(true);
        }
        self.listing.take(text, index, octets)
    }

    fn refuse(text: &mut Text, index: &RecordNumber, fault: S::Fault) -> Result<(), AllocError> {
        C::refuse(text, index, fault)
    }
}
