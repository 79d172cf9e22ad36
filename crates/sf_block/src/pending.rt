//! Pending writes.

ghost use Rattle.std.specs.Prelude.{◌≡◌, ◌+◌, ◌∷◌, ◌<◌, ◌^◌, [], length, IfOk, IfSome, IfNone};
ghost use Rattle.sf_block.specs.Blocks.{unfilled, Copies, TakesNext};

use crate::filling::Filling;
use crate::queue::BlockQueue;
use sf_field::ByteString;
use std::alloc::{AllocError, Global};
use std::boxed::Box;
use std::marker::Model;

/// The rest of a write. It is boxed, since few files have one.
#[derive(Debug, Drop)]
pub(crate) struct Pending {
    /// The number of the first pending block.
    first: u64,
    write: Option<Box<Write>>,
}

/// A block to be put in place.
#[derive(Debug, Drop)]
pub(crate) struct Next {
    pub(crate) number: u64,
    pub(crate) block: ByteString,
    /// Whether it was appended to the copies.
    pub(crate) copied: bool,
}

impl Model for Pending {
    ghost use Rattle.std.specs.Prelude.{[]};
    ghost use Rattle.std.specs.Option.{unwrap_or, option_map};
    ghost use Rattle.sf_block.specs.Blocks.{PendingWrite, unfilled};

    ghost Value = { PendingWrite };

    ghost view = { λ p. record {
      first = p.first;
      fresh = unwrap_or (option_map (λ w. w.value.fresh) p.write) [];
      filled = unwrap_or (option_map (λ w. w.value.filled) p.write) unfilled;
    } };
}

impl Pending {
    /// No write. Allocates nothing.
    pub(crate) fn new() -> Pending
        ensures { result ≡ record { first = 0; fresh = []; filled = unfilled } }
    {
        Pending {
            first: 0,
            write: None,
        }
    }

    /// A write with all blocks pending, numbered from `first` on, and room for copies.
    pub(crate) fn of(
        alloc: Global,
        first: u64,
        fresh: BlockQueue,
        filling: Filling,
    ) -> Result<Pending, AllocError>
        ensures { IfOk result (λ pending. pending
            ≡ record { first = first; fresh = fresh; filled = filling }) }
    {
        let write = Write { fresh, filling };
        Ok(Pending {
            first,
            write: Some(Box::new(alloc, write)?),
        })
    }

    /// A copy that shares the bytes, without copied blocks.
    pub(crate) fn share(&self, alloc: Global) -> Result<Pending, AllocError>
        ensures { IfOk result (λ copy. copy
            ≡ record { first = self.now.first; fresh = self.now.fresh; filled = unfilled }) }
    {
        let write = match &self.write {
            Some(write) => Some(Box::new(alloc, write.share(alloc)?)?),
            None => None,
        };
        Ok(Pending {
            first: self.first,
            write,
        })
    }

    /// The number of pending blocks.
    pub(crate) fn left(&self) -> usize
        ensures { result ≡ length self.now.fresh }
    {
        match &self.write {
            Some(write) => write.left(),
            None => 0,
        }
    }

    /// Removes the first pending block. It is appended to the copies if it is whole and there is
    /// room. Allocates nothing.
    pub(crate) fn next(&mut self) -> Option<Next>
        requires { self.old.first + length self.old.fresh < 2 ^ 64 }
        ensures some { IfSome result (λ next.
            TakesNext self.old self.new next.number next.block next.copied) }
        ensures none { IfNone result ((self.old.fresh ≡ []) × (self.new ≡ self.old)) }
    {
        let number = self.first;
        let next = match &mut self.write {
            Some(write) => write.next(number)?,
            None => return None,
        };
        self.first = number + 1;
        Some(next)
    }

    /// Takes the copies, with the number of the first block, if there are any, and starts the next
    /// buffer. Frees all memory if no block is pending.
    pub(crate) fn take(&mut self) -> Option<(u64, ByteString)>
        ensures taken { IfSome result (λ taken. (taken.0 ≡ self.old.filled.from)
            × (taken.1 ≡ self.old.filled.bytes)) }
        ensures empty { self.new.filled.bytes ≡ [] }
        ensures first { self.new.first ≡ self.old.first }
        ensures fresh { self.new.fresh ≡ self.old.fresh }
    {
        let copies = match &mut self.write {
            Some(write) => write.take(),
            None => return None,
        };
        if self.left() == 0 {
            self.write = None;
        }
        copies
    }
}

/// The pending blocks, and copies of the last ones that were put in place.
#[derive(Debug, Drop)]
struct Write {
    fresh: BlockQueue,
    filling: Filling,
}

impl Model for Write {
    ghost use Rattle.sf_block.specs.Blocks.{WaitingBlocks};

    ghost Value = { WaitingBlocks };

    ghost view = { λ w. record { fresh = w.fresh; filled = w.filling } };
}

impl Write {
    /// A copy that shares the bytes, without copied blocks.
    fn share(&self, alloc: Global) -> Result<Write, AllocError>
        ensures { IfOk result (λ copy. copy
            ≡ record { fresh = self.now.fresh; filled = unfilled }) }
    {
        Ok(Write {
            fresh: self.fresh.share(alloc)?,
            filling: Filling::new(alloc),
        })
    }

    fn left(&self) -> usize
        ensures { result ≡ length self.now.fresh }
    {
        self.fresh.len()
    }

    /// Removes the first block, which has this number.
    fn next(&mut self, number: u64) -> Option<Next>
        ensures some { IfSome result (λ next. (next.number ≡ number)
            × (self.old.fresh ≡ next.block ∷ self.new.fresh)
            × Copies self.old.filled self.new.filled number next.block next.copied) }
        ensures none { IfNone result ((self.old.fresh ≡ []) × (self.new ≡ self.old)) }
    {
        let block = self.fresh.pop()?;
        let copied = self.filling.push(number, block.as_slice());
        Some(Next {
            number,
            block,
            copied,
        })
    }

    fn take(&mut self) -> Option<(u64, ByteString)>
        ensures taken { IfSome result (λ taken. (taken.0 ≡ self.old.filled.from)
            × (taken.1 ≡ self.old.filled.bytes)) }
        ensures empty { self.new.filled.bytes ≡ [] }
        ensures fresh { self.new.fresh ≡ self.old.fresh }
    {
        self.filling.take()
    }
}
