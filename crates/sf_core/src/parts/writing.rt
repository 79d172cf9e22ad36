//! The steps of a WRITE, which copies one block a step.

ghost use Rattle.std.specs.Prelude.{◌≡◌, ◌<◌, ◌+◌, ◌-◌, ℕ, Some, None, IsSome, IfSome, IfNone};
ghost use Rattle.sf_call.specs.declared.call.Call.{Call};
ghost use Rattle.sf_core.specs.Cores.{call_at};
ghost use Rattle.sf_core.specs.Finishing.{write_finished};
ghost use Rattle.sf_core.specs.Writing.{CopiedOn, CopiesNow, CopiesOne, EndsCopying, HasBegunWrite, IsCopyingOn, IsReadyToWrite, WritesOn, block_copied, file_held};
ghost use Rattle.sf_core.specs.Stepping.{FinishState, gone};

use super::Parts;
use sf_call::{Call, Record, Stage};
use sf_reply::Reply;
use sf_walk::{Copying, Writer, left_to_copy, start};

impl Parts {
    /// The first step of a WRITE. If it copies the last block, the call is answered. Otherwise its
    /// record is written, its reply is pending, and it holds its file.
    pub(crate) fn write(&mut self, number: u64) -> Option<Reply>
        requires there { IsSome (call_at self.old.calls number) }
        requires write { (c : Call) → call_at self.old.calls number ≡ Some c
            → IsReadyToWrite self.old c number }
        requires room { 0 < self.old.book.room }
        ensures decided { IfSome result (λ given. (c : Call)
            → call_at self.old.calls number ≡ Some c
            → FinishState self.old self.new c number given
            × CopiesOne self.old.store c given) }
        ensures begun { IfNone result ((c : Call) → call_at self.old.calls number ≡ Some c
            → HasBegunWrite self.old self.new c number) }
    {
        let Some(call) = self.calls.get(number) else {
            unreachable!();
        };
        let (reply, copy) = start(&mut self.store, call);
        match left_to_copy(&self.store, call) {
            None => Some(self.answer(number, reply, copy)),
            Some(into) => {
                self.hold_file(number, reply, copy, into);
                None
            }
        }
    }

    /// Removes a call and writes its record.
    fn answer(&mut self, number: u64, reply: Reply, copy: Reply) -> Reply
        requires there { IsSome (call_at self.old.calls number) }
        requires room { 0 < self.old.book.room }
        ensures copy { result ≡ copy }
        ensures state { (c : Call) → call_at self.old.calls number ≡ Some c
            → self.new ≡ gone self.old c number reply }
    {
        let Some(call) = self.calls.remove(number) else {
            unreachable!();
        };
        self.sessions.set(call.as_call().session, None);
        self.book.put(call.into_record(reply));
        copy
    }

    /// A WRITE holds its file: its record is written, and its reply is pending.
    fn hold_file(&mut self, number: u64, reply: Reply, copy: Reply, into: Copying)
        requires { 0 < self.old.book.room }
        ensures { (c : Call) → call_at self.old.calls number ≡ Some c
            → c.copy ≡ Some c.request → self.new ≡ file_held self.old c number reply copy into }
    {
        let Some(call) = self.calls.get(number) else {
            return;
        };
        let (session, moment) = (call.session, call.moment);
        let Some(request) = self.calls.set_reply(number, copy) else {
            return;
        };
        self.calls.set_stage(
            number,
            Stage::Copies {
                node: into.node,
                left: into.left,
            },
        );
        self.store.hold(into.node, number);
        self.book.put(Record::Did {
            number,
            session,
            moment,
            request,
            reply,
        });
    }

    /// Copies one block of a WRITE, and returns how many remain. After the last block the call
    /// releases its file. Allocates nothing.
    pub(crate) fn copy(&mut self, number: u64) -> usize
        requires { IsCopyingOn self.old number }
        ensures { (node : ℕ) (left : ℕ) → CopiesNow self.old number node left
            → (result + 1 ≡ left) × (self.new ≡ block_copied self.old number node result) }
    {
        let Some(call) = self.calls.get(number) else {
            return 0;
        };
        let Stage::Copies { node, left } = call.stage else {
            return 0;
        };
        self.store.copy_block(node);
        if left <= 1 {
            self.store.free(node);
            self.calls.set_stage(number, Stage::Fresh);
            return 0;
        }
        let left = left - 1;
        self.calls.set_stage(number, Stage::Copies { node, left });
        left
    }

    /// Takes up to `most` steps of a WRITE that is copying. The step that copies the last block
    /// fetches the reply.
    pub(crate) fn copy_on(&mut self, session: u64, number: u64, most: u64) -> Option<Reply>
        requires { IsCopyingOn self.old number }
        ensures some { IfSome result (λ given. EndsCopying self.old self.new session number most
            given) }
        ensures none { IfNone result (CopiedOn most self.old number self.new) }
    {
        for _ in 0..most {
            if self.copy(number) == 0 {
                return self.fetch(session, number);
            }
        }
        None
    }

    /// Takes the first step of a WRITE and up to `most - 1` further steps. Returns its reply if it
    /// is answered.
    pub(crate) fn write_on(&mut self, session: u64, number: u64, most: u64) -> Option<Reply>
        requires there { IsSome (call_at self.old.calls number) }
        requires write { (c : Call) → call_at self.old.calls number ≡ Some c
            → IsReadyToWrite self.old c number }
        requires room { 0 < self.old.book.room }
        requires some { 0 < most }
        ensures { (c : Call) → call_at self.old.calls number ≡ Some c
            → WritesOn self.old self.new c session number most result }
    {
        match self.write(number) {
            Some(reply) => Some(reply),
            None => self.copy_on(session, number, most - 1),
        }
    }

    /// Copies the remaining blocks of a WRITE, and releases its file. Allocates nothing.
    pub(super) fn finish_write(&mut self, writer: Writer)
        ensures { self.new ≡ write_finished self.old writer.number writer.node }
    {
        self.store.copy_rest(writer.node);
        self.store.free(writer.node);
        self.calls.set_stage(writer.number, Stage::Fresh);
    }
}
