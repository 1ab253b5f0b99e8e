//! Tests of the upper layers, only by their public calls: the two nodes (`node_calls`, of `nodes`), the
//! simulated link (`link`, of `tc_link`), its scripts (`scripts`, of `script`), and the devices and the
//! lines of streams (`devices`, of `streams` and `listings`). The tests are a separate crate, so that the
//! layers are not proved again with them. The rows in rows/ test what the lines show.
#![tactic(auto)]

#[cfg(test)]
mod tests;
