// Laws that follow from the definitions of the nodes; the functions do nothing.

ghost use Rattle.nodes.specs.Delivery.{DeliversWhatItReceives};

/// On each MAP, the packets that a spacecraft makes ready are those assembled from the segments of all
/// accepted frames, in order. For any octets that it receives, both lists grow by the same packets.
pub fn law_of_delivery()
    ensures { DeliversWhatItReceives }
{
    map_service::law_of_steps();
}
