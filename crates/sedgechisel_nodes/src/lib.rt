//! Both nodes of the link for programs in C, and a simulated link between two such nodes, each held by a
//! handle. Memory comes from three functions that the program provides.
#![tactic(auto)]

// Runs a call on the node that a handle holds; the handle holds it again afterwards. Returns 255 if it holds
// none.
macro_rules! held {
    ($alloc:expr, $handle:expr, |$node:ident| $call:expr) => {{
        let Some(mut $node) = $crate::holds::take($handle, $alloc) else {
            return $crate::answers::CLOSED;
        };
        let answer = $call;
        $crate::holds::put_back($handle, $alloc, $node);
        answer
    }};
}

// Writes what a call reads of that node.
macro_rules! read {
    ($alloc:expr, $handle:expr, $out:expr, |$node:ident| $value:expr) => {
        held!($alloc, $handle, |$node| {
            *$out = $value;
            0
        })
    };
}

mod answers;
mod commanding;
mod ground;
mod ground_directive;
mod ground_kept;
mod ground_resume;
mod ground_take;
mod ground_telemetry;
mod handles;
mod holds;
mod names;
mod parameters;
mod readings;
mod room;
mod sim;
mod spacecraft;
mod spacecraft_take;
