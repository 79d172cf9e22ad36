//! Boxes as C holds them: raw pointers.

ghost use Rattle.std.specs.Prelude.{◌≡◌, List, Option, Some, None, IsSome};
ghost use Rattle.std.specs.Coded.{coded_option};
ghost use Rattle.sf_call.specs.Leaves.{Leaf};
ghost use Rattle.sf_engine.specs.Views.{EngineView};
ghost use Rattle.sf_engine.specs.contracts.engine.Engine.{the_row as engine_row};
ghost use Rattle.sf_refusing.specs.declared.refusals.Refusals.{Refusals};
ghost use Rattle.sf_refusing.specs.contracts.refusals.Refusals.{the_row as refusals_row};
ghost use Rattle.sf_c.specs.contracts.leaves.Leaves.{the_row as tree_row};

use crate::leaves::Leaves;
use sf_engine::Engine;
use sf_refusing::Refusals;
use std::alloc::{Allocator, Global};
use std::marker::Model;
use std::{mem, ptr};

/// A box as a raw pointer and its allocator, or null.
pub(crate) struct RawBox<T, A: Allocator> {
    at: *mut T,
    alloc: A,
    ghost value: { Option T } by { coded_option T.code },
}

impl<T, A: Allocator> Model for RawBox<T, A> {
    ghost use Rattle.sf_c.specs.Owned.{box_owned};

    ghost also_owns = { λ b. box_owned (A.dealloc_token b.alloc) T.row b.at b.value };
}

impl<T: Drop, A: Allocator> RawBox<T, A> {
    fn null(alloc: A) -> RawBox<T, A>
        ensures { result.value ≡ None }
    {
        RawBox {
            at: ptr::null_mut(),
            alloc,
        }
    }

    fn of(value: Box<T, A>) -> RawBox<T, A>
        ensures { result.value ≡ Some value.value }
    {
        let (at, alloc) = Box::into_raw_with_allocator(value);
        RawBox { at, alloc }
    }

    fn into_box(self) -> Box<T, A>
        requires { IsSome self.value }
        ensures { self.value ≡ Some result.value }
    {
        let RawBox { at, alloc } = self;
        unsafe { Box::from_raw(alloc, at) }
    }
}

/// C's handle of an engine: its box, or empty. C may move it to another thread.
#[repr(C)]
#[derive(Drop)]
pub struct EngineHandle {
    at: *mut u8,
    alloc: Global,
    pub ghost engine: { Option EngineView } by { coded_option engine_row.coded },
}

impl Model for EngineHandle {
    ghost use Rattle.std.specs.contracts.impls.GlobalAllocator.TheImpl.{ghosts};
    ghost use Rattle.sf_engine.specs.contracts.engine.Engine.{the_row};
    ghost use Rattle.sf_c.specs.Owned.{box_owned};

    ghost also_owns = { λ h. box_owned (ghosts.dealloc_token h.alloc) the_row h.at h.engine };
}

// The proof is in `proofs/handle/EngineHandle/TheSendSync`.
unsafe impl Send for EngineHandle {}

impl EngineHandle {
    fn of(raw: RawBox<Engine, Global>) -> EngineHandle
        ensures { result.engine ≡ raw.value }
    {
        let RawBox { at, alloc } = raw;
        EngineHandle {
            at: at as *mut u8,
            alloc,
        }
    }

    fn into_raw(self) -> RawBox<Engine, Global>
        ensures { self.engine ≡ result.value }
    {
        let EngineHandle { at, alloc } = self;
        RawBox {
            at: at as *mut Engine,
            alloc,
        }
    }

    /// Takes the engine out and leaves the handle empty. The caller puts it back or drops it.
    pub fn take(&mut self, alloc: Global) -> Box<Engine, Global>
        requires { IsSome self.old.engine }
        ensures engine { self.old.engine ≡ Some result.value }
        ensures taken { self.new.engine ≡ None }
    {
        mem::replace(self, EngineHandle::of(RawBox::null(alloc)))
            .into_raw()
            .into_box()
    }

    /// Puts an engine into the empty handle.
    pub fn put(&mut self, engine: Box<Engine, Global>)
        ensures { self.new.engine ≡ Some engine.value }
    {
        *self = EngineHandle::of(RawBox::of(engine));
    }
}

/// C's handle of an engine's refusals: their box, or empty. C may move it to another thread.
#[repr(C)]
#[derive(Drop)]
pub struct RefusalsHandle {
    at: *mut u8,
    alloc: Global,
    pub ghost refusals: { Option Refusals } by { coded_option refusals_row.coded },
}

impl Model for RefusalsHandle {
    ghost use Rattle.std.specs.contracts.impls.GlobalAllocator.TheImpl.{ghosts};
    ghost use Rattle.sf_refusing.specs.contracts.refusals.Refusals.{the_row};
    ghost use Rattle.sf_c.specs.Owned.{box_owned};

    ghost also_owns = { λ h. box_owned (ghosts.dealloc_token h.alloc) the_row h.at h.refusals };
}

// The proof is in `proofs/handle/RefusalsHandle/TheSendSync`.
unsafe impl Send for RefusalsHandle {}

impl RefusalsHandle {
    fn of(raw: RawBox<Refusals, Global>) -> RefusalsHandle
        ensures { result.refusals ≡ raw.value }
    {
        let RawBox { at, alloc } = raw;
        RefusalsHandle {
            at: at as *mut u8,
            alloc,
        }
    }

    fn into_raw(self) -> RawBox<Refusals, Global>
        ensures { self.refusals ≡ result.value }
    {
        let RefusalsHandle { at, alloc } = self;
        RawBox {
            at: at as *mut Refusals,
            alloc,
        }
    }

    /// Takes the refusals out and leaves the handle empty. The caller puts them back or drops them.
    pub fn take(&mut self, alloc: Global) -> Box<Refusals, Global>
        requires { IsSome self.old.refusals }
        ensures refusals { self.old.refusals ≡ Some result.value }
        ensures taken { self.new.refusals ≡ None }
    {
        mem::replace(self, RefusalsHandle::of(RawBox::null(alloc)))
            .into_raw()
            .into_box()
    }

    /// Puts refusals into the empty handle.
    pub fn put(&mut self, refusals: Box<Refusals, Global>)
        ensures { self.new.refusals ≡ Some refusals.value }
    {
        *self = RefusalsHandle::of(RawBox::of(refusals));
    }
}

/// C's handle of a snapshot: the box of its leaves, or empty. C may move it to another thread.
#[repr(C)]
#[derive(Drop)]
pub struct TreeHandle {
    at: *mut u8,
    alloc: Global,
    pub ghost tree: { Option (List Leaf) } by { coded_option tree_row.coded },
}

impl Model for TreeHandle {
    ghost use Rattle.std.specs.contracts.impls.GlobalAllocator.TheImpl.{ghosts};
    ghost use Rattle.sf_c.specs.contracts.leaves.Leaves.{the_row};
    ghost use Rattle.sf_c.specs.Owned.{box_owned};

    ghost also_owns = { λ h. box_owned (ghosts.dealloc_token h.alloc) the_row h.at h.tree };
}

// The proof is in `proofs/handle/TreeHandle/TheSendSync`.
unsafe impl Send for TreeHandle {}

impl TreeHandle {
    fn of(raw: RawBox<Leaves, Global>) -> TreeHandle
        ensures { result.tree ≡ raw.value }
    {
        let RawBox { at, alloc } = raw;
        TreeHandle {
            at: at as *mut u8,
            alloc,
        }
    }

    fn into_raw(self) -> RawBox<Leaves, Global>
        ensures { self.tree ≡ result.value }
    {
        let TreeHandle { at, alloc } = self;
        RawBox {
            at: at as *mut Leaves,
            alloc,
        }
    }

    /// Takes the snapshot out and leaves the handle empty. The caller puts it back or drops it.
    pub fn take(&mut self, alloc: Global) -> Box<Leaves, Global>
        requires { IsSome self.old.tree }
        ensures tree { self.old.tree ≡ Some result.value }
        ensures taken { self.new.tree ≡ None }
    {
        mem::replace(self, TreeHandle::of(RawBox::null(alloc)))
            .into_raw()
            .into_box()
    }

    /// Puts a snapshot into the empty handle.
    pub fn put(&mut self, tree: Box<Leaves, Global>)
        ensures { self.new.tree ≡ Some tree.value }
    {
        *self = TreeHandle::of(RawBox::of(tree));
    }
}
