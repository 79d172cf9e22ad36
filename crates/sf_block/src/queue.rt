//! Queues of blocks.

ghost use Rattle.std.specs.Prelude.{◌≡◌, ◌++◌, ◌∷◌, ◌-◌, ◌<◌, ◌^◌, [], length, IfOk, OnOk, OnErr, IfSome, IfNone};

use sf_field::ByteString;
use std::alloc::{AllocError, Global};
use std::collections::VecDeque;
use std::marker::Model;

/// A queue of blocks. The first block is stored inline, so that most writes allocate nothing for
/// it.
#[derive(Debug, Drop)]
pub(crate) struct BlockQueue {
    /// The first block that was pushed, until it is popped.
    head: Option<ByteString>,
    later: VecDeque<ByteString>,
    len: usize,
}

impl Model for BlockQueue {
    ghost use Rattle.std.specs.Prelude.{List, ℕ, ◌≡◌, ◌++◌, length};
    ghost use Rattle.std.specs.Option.{option_to_list};

    ghost Value = { List (List ℕ) };

    ghost view = { λ q. option_to_list q.head ++ q.later.items };

    ghost invariant = { λ q. q.len ≡ length (option_to_list q.head ++ q.later.items) };
}

impl BlockQueue {
    /// No blocks, and capacity for `count`.
    pub(crate) fn with_capacity(alloc: Global, count: usize) -> Result<BlockQueue, AllocError>
        ensures { IfOk result (λ queue. queue ≡ []) }
    {
        Ok(BlockQueue {
            head: None,
            later: VecDeque::with_capacity(alloc, count.saturating_sub(1))?,
            len: 0,
        })
    }

    /// A copy that shares the bytes.
    pub(crate) fn share(&self, alloc: Global) -> Result<BlockQueue, AllocError>
        ensures { IfOk result (λ copy. copy ≡ self.now) }
    {
        let head = match &self.head {
            Some(block) => Some(block.share()?),
            None => None,
        };
        Ok(BlockQueue {
            head,
            later: VecDeque::from_vec(shares(alloc, &self.later)?),
            len: self.len,
        })
    }

    /// The number of blocks.
    pub(crate) fn len(&self) -> usize
        ensures { result ≡ length self.now }
    {
        self.len
    }

    /// Pushes a block at the end.
    pub(crate) fn push(&mut self, block: ByteString) -> Result<(), AllocError>
        requires { length self.old < 2 ^ 64 - 1 }
        ensures ok { OnOk result (self.new ≡ self.old ++ block ∷ []) }
        ensures err { OnErr result (self.new ≡ self.old) }
    {
        if self.len == 0 {
            self.head = Some(block);
        } else {
            self.later.push_back(block)?;
        }
        self.len += 1;
        Ok(())
    }

    /// Removes the first block.
    pub(crate) fn pop(&mut self) -> Option<ByteString>
        ensures some { IfSome result (λ block. self.old ≡ block ∷ self.new) }
        ensures none { IfNone result ((self.old ≡ []) × (self.new ≡ self.old)) }
    {
        let block = match self.head.take() {
            Some(block) => block,
            None => self.later.pop_front()?,
        };
        self.len -= 1;
        Some(block)
    }
}

/// A copy that shares the bytes.
fn shares(alloc: Global, blocks: &VecDeque<ByteString>) -> Result<Vec<ByteString>, AllocError>
    ensures { IfOk result (λ copy. copy.items ≡ blocks.now.items) }
{
    let mut copy = Vec::with_capacity(alloc, blocks.len())?;
    for i in 0..blocks.len() {
        copy.push(blocks[i].share()?)?;
    }
    Ok(copy)
}
