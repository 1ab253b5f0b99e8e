// What all handles share: taking out what a handle holds, and putting it in.

ghost use Rattle.std.specs.Prelude.{◌≡◌, ◌≢◌, ◌⊎◌, Option, Some, None, option_map};

use crate::answers::MEMORY;
use kept::Kept;
use std::alloc::Global;
use std::mem;

/// A handle of a box that the program keeps, or of none.
pub(crate) trait Holds {
    type Node: Drop;

    ghost held: { Self → Option Self.Node };

    fn of(kept: Kept<Self::Node, Global>) -> Self
        ensures { held result ≡ kept.value };

    fn into_kept(self, alloc: Global) -> Kept<Self::Node, Global>
        ensures { result.value ≡ held self };
}

// Takes out what is held, and leaves none.
pub(crate) fn take<H: Holds>(handle: &mut H, alloc: Global) -> Option<Box<H::Node>>
    ensures taken { option_map (λ b. b.value) result ≡ H.held handle.old }
    ensures none { H.held handle.new ≡ None }
{
    let none = H::of(Kept::none(alloc));
    mem::replace(handle, none).into_kept(alloc).into_option()
}

// Puts back what was taken out; nothing may be held meanwhile.
pub(crate) fn put_back<H: Holds>(handle: &mut H, alloc: Global, node: Box<H::Node>)
    requires { H.held handle.old ≡ None }
    ensures { H.held handle.new ≡ Some node.value }
{
    let full = H::of(Kept::of(node));
    mem::replace(handle, full).into_kept(alloc).end();
}

// Puts in what is to be held, and frees what was there.
pub(crate) fn put<H: Holds>(handle: &mut H, alloc: Global, node: Box<H::Node>)
    ensures { H.held handle.new ≡ Some node.value }
{
    let full = H::of(Kept::of(node));
    drop(mem::replace(handle, full).into_kept(alloc).into_option());
}

// Puts in a new node instead of what was there. Returns 0, or 6 if memory runs out.
pub(crate) fn open<H: Holds>(handle: &mut H, alloc: Global, node: H::Node) -> u8
    ensures answer { (result ≡ 0) ⊎ (result ≡ 6) }
    ensures opened { result ≡ 0 → H.held handle.new ≡ Some node }
    ensures unchanged { result ≢ 0 → H.held handle.new ≡ H.held handle.old }
{
    match Box::new(alloc, node) {
        Ok(node) => {
            put(handle, alloc, node);
            0
        }
        Err(_) => MEMORY,
    }
}
