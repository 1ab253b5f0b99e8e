// The lines on standard error by which tests report that growths were refused. tools/refusals reads them.

use super::equal::equal;
use std::fmt::Debug;
use std::process::Abort;

/// Returns the answer of a call. If memory is refused, it makes the call again.
pub fn again<T, F: Copy + Debug + PartialEq, C: FnMut() -> Result<T, F>>(
    rt: &(impl Abort + Eprint),
    memory: F,
    mut call: C,
) -> Result<T, F>
    requires { C.IsAlwaysCallable call }
{
    match call() {
        Ok(made) => Ok(made),
        Err(fault) => {
            says_refused(rt, fault, memory);
            call()
        }
    }
}

/// Reports a refused growth, and checks that the fault is Memory.
pub fn says_refused<F: Copy + Debug + PartialEq>(rt: &(impl Abort + Eprint), fault: F, memory: F) {
    let _ = eprintln!(rt; "refused a growth");
    equal(rt, &fault, &memory);
}
