//! Both ends of the link for programs in C: a static library that allocates nothing, and calls only `memcpy`,
//! `memmove` and `memset` of other libraries.
#![tactic(auto)]

// Writes what a crate's call returns, and returns 0; or returns the number of the call's fault.
macro_rules! written {
    ($call:expr, |$found:pat_param| $write:expr) => {
        match $call {
            Ok($found) => {
                $write;
                0
            }
            Err(fault) => fault.number(),
        }
    };
}

// Runs a call on the receiver or the sender that the fields describe, and returns its answer; the fields
// describe it again afterwards.
macro_rules! step {
    ($fields:ident, |$machine:ident| $call:expr) => {
        match described($fields) {
            Ok(mut $machine) => {
                let answer = $call;
                *$fields = kept(&$machine);
                answer
            }
            Err(number) => number,
        }
    };
    ($fields:ident, |$machine:ident| $event:expr, $answer:expr) => {
        step!($fields, |$machine| {
            $event;
            $answer
        })
    };
}

mod assembly;
mod command_frame;
mod control_word;
mod cutting;
mod executor;
mod extracted_frames;
mod frame_check;
mod names;
mod numbers;
mod packet;
mod part;
mod receiver;
mod sender;
mod telemetry_builder;
mod telemetry_extractor;
mod telemetry_frame;
mod version;
