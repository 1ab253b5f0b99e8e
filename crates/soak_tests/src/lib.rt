//! Tests of long runs and long data with ample memory. No call may answer that it is out of memory, and what
//! goes in must come out. `accounts` keeps the bookkeeping of memory.
#![tactic(auto)]

#[cfg(test)]
mod tests;
