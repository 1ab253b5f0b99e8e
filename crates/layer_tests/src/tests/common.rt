// Helpers that several tests share: configurations, a comparison that is proved once, and the lines on
// standard error by which tests report that growths were refused. tools/refusals reads these lines.

use nodes::Parameter;
use std::alloc::Global;
use std::fmt::Debug;
use std::process::Abort;
use tc_link::Config;

/// Returns a configuration with segments of at most `part` octets, and with blocking (1) or without (0).
pub fn with_parts(part: u32, blocking: u32) -> Config {
    Config {
        part,
        blocking,
        ..Config::default()
    }
}

/// Returns a configuration in which one parameter has this value and the others have their defaults.
pub fn with_value(parameter: Parameter, value: u32) -> Config {
    let mut config = Config::default();
    config.set(parameter, u64::from(value));
    config
}

/// Stops the test and prints both values unless they are equal.
pub fn equal<A: PartialEq + Debug>(rt: &impl Abort, left: &A, right: &A) {
    assert_eq!(*rt; *left, *right);
}

/// Reports a refused growth, and checks that its fault has the number of Memory.
pub fn says_refused(rt: &(impl Abort + Eprint), number: u8, memory: u8) {
    let _ = eprintln!(rt; "refused a growth");
    equal(rt, &number, &memory);
}

/// Returns the answer of a node's call. If the answer is `refusal`, the fault of a call out of memory, this
/// checks that nothing visible of the node has changed, and makes the call again.
pub fn answer_of<N, S, T, F, Seen, Call>(
    rt: &(impl Abort + Eprint),
    node: &mut N,
    seen: Seen,
    refusal: Option<F>,
    call: Call,
) -> Result<T, F>
where
    S: PartialEq + Drop,
    F: Copy + PartialEq,
    Seen: Fn(&N) -> S,
    Call: Fn(&mut N) -> Result<T, F>,
    requires seen { Seen.IsAlwaysCallable seen }
    requires call { Call.IsAlwaysCallable call }
{
    let before = seen(node);
    match call(node) {
        Ok(made) => Ok(made),
        Err(fault) if refusal == Some(fault) => {
            let _ = eprintln!(rt; "refused a growth");
            assert!(rt; seen(node) == before);
            call(node)
        }
        Err(fault) => Err(fault),
    }
}

/// Makes one growth after all others of a test.
pub fn ends_growths(rt: &(impl Abort + Eprint), alloc: Global) {
    if Vec::<u8>::with_capacity(alloc, 1).is_err() {
        let _ = eprintln!(rt; "refused a growth, the last");
    }
}
