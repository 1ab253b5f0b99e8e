// The tests by subject, and the helpers that several of them share.

mod as_octets;
mod control_words;
mod equal;
mod frame_check;
mod frames;
mod names;
mod no_memory;
mod packets;
mod receiver;
mod refusals;
mod segments;
mod sender;
mod splitter;
mod telemetry;
