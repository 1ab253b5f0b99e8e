// The next uplink frame, with what the records keep of it.

ghost use Rattle.std.specs.Prelude.{◌≡◌, true, IfOk, IfSome, IsOkUnless, option_map, option_to_list};
ghost use Rattle.std.specs.Option.{is_some};
ghost use Rattle.tc_frame.specs.declared.frame.Check.TheVariants.{On};
ghost use Rattle.tc_frame.specs.Layout.{body_view, body_fits};
ghost use Rattle.tc_frame.specs.Encoding.{spelling};
ghost use Rattle.nodes.specs.Ground.{ground_step, Pull};
ghost use Rattle.simulated_link.specs.World.{first_sent, first_in};

use crate::fault::SimFault;
use nodes::{Ground, data_field_of};
use std::alloc::Global;
use tc_frame::{Body, Check, encode};

// The octets of a frame, a copy of them for the reply, and the data field if it is sent for the first time.
#[derive(Drop)]
pub(crate) struct Outgoing {
    pub(crate) octets: Vec<u8>,
    pub(crate) copy: Vec<u8>,
    pub(crate) field: Option<Vec<u8>>,
}

// Returns the frame that the ground sends next, if there is one.
pub(crate) fn next_frame(alloc: Global, ground_node: &Ground) -> Result<Option<Outgoing>, SimFault>
    ensures octets { IfOk result (λ some. option_map (λ o. o.octets.items) some
        ≡ option_map (spelling On) (ground_step ground_node.now Pull).answer) }
    ensures copy { IfOk result (λ some. option_map (λ o. o.copy.items) some
        ≡ option_map (spelling On) (ground_step ground_node.now Pull).answer) }
    ensures field { IfOk result (λ some. IfSome some (λ o. option_to_list (option_map (λ v. v.items) o.field)
        ≡ first_in ground_node.now.fop.vs (ground_step ground_node.now Pull).answer)) }
    ensures fault { IsOkUnless result SimFault.Memory }
{
    let Some(frame) = ground_node.peek() else {
        return Ok(None);
    };
    let Ok(mut octets) = Vec::from_elem(alloc, 0, frame.total(Check::On)) else {
        return Err(SimFault::Memory);
    };
    let Ok(_) = encode(&frame, Check::On, octets.as_mut_slice()) else {
        unreachable!()
    };
    let Ok(copy) = Vec::from_slice(alloc, octets.as_slice()) else {
        return Err(SimFault::Memory);
    };
    let field = first_sent(alloc, ground_node.vs(), &frame.body)?;
    Ok(Some(Outgoing {
        octets,
        copy,
        field,
    }))
}

// Returns the data field of a Type-AD frame if its number is V(S): it is then sent for the first time.
fn first_sent(alloc: Global, vs: u8, body: &Body<'_>) -> Result<Option<Vec<u8>>, SimFault>
    requires { body_fits (body_view body.now) ≡ true }
    ensures field { IfOk result (λ some. option_to_list (option_map (λ v. v.items) some)
        ≡ first_sent vs (body_view body.now)) }
    ensures fault { IsOkUnless result SimFault.Memory }
{
    let Body::Ad { n, segment } = body else {
        return Ok(None);
    };
    if *n != vs {
        return Ok(None);
    }
    match data_field_of(alloc, segment) {
        Ok(field) => Ok(Some(field)),
        Err(_) => Err(SimFault::Memory),
    }
}
