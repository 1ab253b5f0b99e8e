//! Tests of the lower layers, only by their public calls: the FECF and the splitter (`octets`), packets
//! (`space_packet`), frames (`tc_frame`), CLCWs (`clcw`), telemetry (`tm_link`), segments (`map_service`),
//! and the receiver and the sender of COP-1 (`cop1`). The tests are a separate crate, so that the layers are
//! not proved again with them.
#![tactic(auto)]

#[cfg(test)]
mod tests;
