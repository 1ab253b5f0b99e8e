// Reading a store.

ghost use Rattle.std.specs.Prelude.{◌≡◌, ◌≤◌, ◌+◌, IfOk, OnOk, OnErr, length, drop};
ghost use Rattle.command_ledger.specs.State.{new_state};
ghost use Rattle.command_ledger.specs.Store.{next_entry, next_len, after_some, reading, read_on};

use crate::entry::{entry_in, entry_len};
use crate::state::State;
use std::alloc::{AllocError, Global};

// Applies the next entry to the state. Returns its length, or 0 if there is none.
fn read_next(alloc: Global, state: &mut State, octets: &[u8]) -> Result<usize, AllocError>
    ensures len { IfOk result (λ n. n ≡ next_len state.old octets.now) }
    ensures within { IfOk result (λ n. n ≤ length octets.now) }
    ensures state { OnOk result (state.new ≡ after_some state.old (next_entry state.old octets.now)) }
{
    let len = entry_len(octets);
    if len == 0 {
        return Ok(0);
    }
    let (octets, _) = octets.split_at(len);
    let Some(entry) = entry_in(octets) else {
        return Ok(0);
    };
    if !state.follows(&entry) {
        return Ok(0);
    }
    state.apply(alloc, &entry)?;
    Ok(len)
}

// Does the same for the entry that begins after this many octets.
fn read_at(
    alloc: Global,
    state: &mut State,
    octets: &[u8],
    good: usize,
) -> Result<usize, AllocError>
    requires { good ≤ length octets.now }
    ensures len { IfOk result (λ n. n ≡ next_len state.old (drop good octets.now)) }
    ensures within { IfOk result (λ n. good + n ≤ length octets.now) }
    ensures state { OnOk result (state.new ≡ after_some state.old (next_entry state.old (drop good octets.now))) }
{
    let (_, rest) = octets.split_at(good);
    read_next(alloc, state, rest)
}

/// Reads entries until the octets no longer form an entry that may follow. Returns how many octets were read.
pub(crate) fn read(alloc: Global, octets: &[u8]) -> Result<(State, usize), AllocError>
    ensures { IfOk result (λ r. reading r.0 r.1 ≡ read_on (length octets.now) (reading new_state 0) octets.now) }
{
    let mut state = State::new(alloc);
    let mut good = 0;
    for _entry in 0..octets.len() {
        let len = read_at(alloc, &mut state, octets, good)?;
        if len == 0 {
            return Ok((state, good));
        }
        good += len;
    }
    Ok((state, good))
}
