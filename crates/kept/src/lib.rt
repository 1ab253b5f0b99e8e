//! A box that a program in C keeps, or none.
#![tactic(auto)]

ghost use Rattle.std.specs.Prelude.{◌≡◌, Option, Some, None, is_some, true, option_map, MatchOption};
ghost use Rattle.std.specs.Coded.{coded_option};
ghost use Rattle.kept.specs.KeptBox.{kept_owns};

use std::alloc::{Allocator, Global};
use std::marker::Model;
use std::mem;
use std::ptr::null_mut;

/// A box as a pointer that C can hold; null for none.
#[repr(C)]
pub struct Kept<T, A: Allocator> {
    pub at: *mut T,
    pub alloc: A,
    pub ghost value: { Option T } by { coded_option T.code },
}

impl<T, A: Allocator> Model for Kept<T, A> {
    ghost also_owns = { λ k. kept_owns (A.dealloc_token k.alloc) T.row k.at k.value };
}

impl<T: Drop, A: Allocator> Kept<T, A> {
    pub fn of(value: Box<T, A>) -> Kept<T, A>
        ensures { result.value ≡ Some value.value }
    {
        let (at, alloc) = Box::into_raw_with_allocator(value);
        Kept { at, alloc }
    }

    pub fn into_box(self) -> Box<T, A>
        requires { is_some self.value ≡ true }
        ensures { Some result.value ≡ self.value }
    {
        let Kept { at, alloc } = self;
        unsafe { Box::from_raw(alloc, at) }
    }
}

impl<T> Kept<T, Global> {
    /// Creates a value that holds no box.
    pub fn none(alloc: Global) -> Kept<T, Global>
        ensures { result.value ≡ None }
    {
        Kept {
            at: null_mut(),
            alloc,
        }
    }

    // Returns the same value, if it holds a box.
    fn present(self) -> Option<Kept<T, Global>>
        ensures { MatchOption result (self.value ≡ None)
            (λ k. (k.value ≡ self.value) × (is_some k.value ≡ true)) }
    {
        let Kept { at, alloc } = self;
        if at.is_null() {
            None
        } else {
            Some(Kept { at, alloc })
        }
    }
}

impl<T> Kept<T, Global> {
    /// Discards a value that holds no box.
    pub fn end(self)
        requires { self.value ≡ None }
    {
        let Kept { at: _, alloc: _ } = self;
    }
}

impl<T: Drop> Kept<T, Global> {
    /// Returns the box, if there is one.
    pub fn into_option(self) -> Option<Box<T>>
        ensures { option_map (λ b. b.value) result ≡ self.value }
    {
        match self.present() {
            Some(kept) => Some(kept.into_box()),
            None => None,
        }
    }

    /// Takes the box out, if there is one, and leaves none.
    pub fn take(&mut self, alloc: Global) -> Option<Box<T>>
        ensures taken { option_map (λ b. b.value) result ≡ self.old.value }
        ensures none { self.new.value ≡ None }
    {
        mem::replace(self, Kept::none(alloc)).into_option()
    }

    /// Puts a box in, and frees the one that was there, if any.
    pub fn put(&mut self, value: Box<T>)
        ensures { self.new.value ≡ Some value.value }
    {
        drop(mem::replace(self, Kept::of(value)).into_option());
    }
}
