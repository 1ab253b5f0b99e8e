// The answer of the link if the ground refuses packets.

ghost use Rattle.std.specs.Prelude.{◌≡◌};
ghost use Rattle.simulated_link.specs.Replies.{answer_to_refusal};

use crate::fault::SimFault;
use crate::reply::{NodeFault, Reply};
use nodes::LinkFault;

// Returns the link's own fault Memory if a node is out of memory, and a reply for any other refusal.
pub(crate) fn answer_to_refusal(fault: LinkFault) -> Result<Reply, SimFault>
    ensures { result ≡ answer_to_refusal fault }
{
    match fault {
        LinkFault::Memory => Err(SimFault::Memory),
        fault => Ok(Reply::Refused(NodeFault::Link(fault))),
    }
}
