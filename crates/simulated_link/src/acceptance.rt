// What an accepted frame adds to the records.

ghost use Rattle.std.specs.Prelude.{◌≡◌, ◌<◌, None, Ok, IfOk, IfSome, IsOkUnless, option_map};
ghost use Rattle.map_service.specs.Views.{packets_view};
ghost use Rattle.tm_link.specs.Extractor.{octets_of};
ghost use Rattle.nodes.specs.Arrival.{accepted_of};
ghost use Rattle.simulated_link.specs.Acceptance.{acceptance_view, acceptance_in};

use nodes::{Arrival, LinkFault, data_field_of};
use std::alloc::{AllocError, Global};

// The data field of an accepted frame, its MAP, and copies of the packets that the frame makes ready.
#[derive(Drop)]
pub(crate) struct Acceptance {
    pub(crate) field: Vec<u8>,
    pub(crate) map: u8,
    pub(crate) packets: Vec<Vec<u8>>,
}

pub(crate) fn acceptance_of(
    alloc: Global,
    arrival: &Arrival<'_>,
) -> Result<Option<Acceptance>, LinkFault>
    ensures accepted { IfOk result (λ some. option_map acceptance_view some
        ≡ acceptance_in arrival.now) }
    ensures map { IfOk result (λ some. IfSome some (λ f. f.map < 64)) }
    ensures fault { IsOkUnless result LinkFault.Memory }
    ensures nothing { accepted_of arrival.now ≡ None → result ≡ Ok None }
{
    let Some((segment, packets)) = arrival.accepted() else {
        return Ok(None);
    };
    let field = data_field_of(alloc, &segment)?;
    let Ok(packets) = copies_of(alloc, packets) else {
        return Err(LinkFault::Memory);
    };
    Ok(Some(Acceptance {
        field,
        map: segment.header.map,
        packets,
    }))
}

fn copies_of(alloc: Global, packets: &[Vec<u8>]) -> Result<Vec<Vec<u8>>, AllocError>
    ensures { IfOk result (λ copies. packets_view copies ≡ octets_of packets.now) }
{
    let mut copies = Vec::with_capacity(alloc, packets.len())?;
    for packet in packets {
        copies.push(Vec::from_slice(alloc, packet)?)?;
    }
    Ok(copies)
}
