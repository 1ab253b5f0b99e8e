// Frames as the records of a stream, with and without the check.

ghost use Rattle.std.specs.Prelude.{◌≡◌, ◌≤◌, ◌%◌, ◌+◌, length, take, drop};
ghost use Rattle.std.proofs.Common.{arith};
ghost use Rattle.octets.specs.Number.{number_of};
ghost use Rattle.tc_frame.specs.declared.fault.TcFault.TheVariants as faults;
ghost use Rattle.tc_frame.specs.Layout.{FrameView};
ghost use Rattle.tc_frame.specs.Splitter.{IsSpelling, check_if, total_at};
ghost use Rattle.tc_frame.specs.Laws.{total_has_head, one_spelling_of, own_total};

use crate::decoding::{len_of_check, low_ten};
use crate::fault::TcFault;
use crate::frame::Check;
use octets::{Wire, first_two};

/// Frames as records of a stream, with or without their FECF (CCSDS 232.0-B-4, 4.1).
#[derive(Clone, Copy, Debug, PartialEq, Eq)]
pub struct FrameLayout<const CHECKED: bool>;

/// Frames that end with their FECF, as records of a stream.
pub type Checked = FrameLayout<true>;

/// Frames without an FECF, as records of a stream.
pub type Unchecked = FrameLayout<false>;

fn declared_total(head: &[u8], check: Check) -> Result<usize, TcFault>
    requires { 5 ≤ length head.now }
    ensures { result ≡ total_at check (take 5 head.now) }
{
    let total = low_ten(first_two(&head[2..])) as usize + 1;
    if total < 5 + len_of_check(check) {
        return Err(TcFault::Length);
    }
    Ok(total)
}

/// Returns `On` if the frames end with their FECF, and `Off` otherwise.
pub fn check_if(checked: bool) -> Check
    ensures { result ≡ check_if checked }
{
    if checked { Check::On } else { Check::Off }
}

impl<const CHECKED: bool> Wire for FrameLayout<CHECKED> {
    type Fault = TcFault;

    const HEAD: usize = 5;

    ghost HEAD = { 5 };

    ghost extent_of = { λ head. total_at (check_if CHECKED) head };

    ghost Value = { FrameView };

    ghost IsSpelling = { λ f octets. IsSpelling (check_if CHECKED) f octets };

    ghost truncated_fault = { faults.Short };

    ghost memory_fault = { faults.Memory };

    fn extent(head: &[u8]) -> Result<usize, TcFault> {
        declared_total(head, check_if(CHECKED))
    }

    fn truncated() -> TcFault {
        TcFault::Short
    }

    fn memory() -> TcFault {
        TcFault::Memory
    }

    ghost some_head = { Prim.omega arith };

    ghost extent_has_head = { λ head n e. total_has_head (check_if CHECKED) head n e };

    ghost one_spelling = { λ f xs ys p q. one_spelling_of (check_if CHECKED) f xs ys p q };

    ghost own_extent = { λ f octets p. own_total (check_if CHECKED) f octets p.spells };
}
