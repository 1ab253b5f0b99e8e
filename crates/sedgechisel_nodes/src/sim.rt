// The simulated link of a program in C.

mod events;
pub(crate) mod link;
mod readings;
mod records;
mod reply;
mod submissions;
