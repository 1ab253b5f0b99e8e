// The tests by subject, and the helpers that several of them share.

mod common;
mod devices;
mod endings;
mod frames;
mod full_queues;
mod link;
mod no_memory;
mod node_calls;
mod scripts;
