//! The law of the limits that clients are sent, stated as the contract of an empty function.

ghost use Rattle.std.specs.Prelude.{◌≡◌, ℕ, ◌<◌, ◌≤◌, ◌^◌, nat_eq, true, false, List, ◌∷◌, ◌++◌, length, take, drop, Some};
ghost use Rattle.std.specs.List.{count_by};
ghost use Rattle.sf_field.specs.Fields.{be32, be64};
ghost use Rattle.sf_wire.specs.declared.cutting.Cut.TheVariants.{Bad};
ghost use Rattle.sf_wire.specs.declared.cutting.BadCut.TheVariants.{TooLong};
ghost use Rattle.sf_wire.specs.Packets.{IsBody, IsCut};
ghost use Rattle.sf_request.specs.declared.request.WireRequest.TheVariants.{Write};
ghost use Rattle.sf_request.specs.Requests.{request_body};
ghost use Rattle.sf_reply.specs.declared.reply.Reply.TheVariants.{Data};
ghost use Rattle.sf_call.specs.declared.metadata.Metadata.{Metadata};
ghost use Rattle.sf_call.specs.Calls.{has_all_handles, read, tells};
ghost use Rattle.sf_call.specs.Attributes.Object.{File};
ghost use Rattle.sf_call.specs.declared.handle.Handle.{Handle};
ghost use Rattle.sf_call.specs.Tree.{Tree};
ghost use Rattle.sf_session.specs.Limits.{limits_body};

/// The limits that `limits@openssh.com` is answered, as numbers. The server keeps them.
pub fn sent_limits()
    ensures sent { (id : ℕ)
        → limits_body id ≡ 201 ∷ be32 id ++ be64 262144 ++ be64 261120 ++ be64 261120 ++ be64 128 }
    // A packet has at most 262144 bytes after its length.
    ensures packet { (n : ℕ) (rest : List ℕ) → 262144 < n → n < 2 ^ 32
        → IsCut (be32 n ++ rest) (Bad TooLong) }
    // A READ of up to 261120 bytes returns all of them, or those up to the end of the file.
    ensures read { (offset len : ℕ) (handle : Handle) (m : Metadata) (contents : List ℕ)
        → handle.read ≡ true → offset < length contents → len ≤ 261120
        → read offset len (Some (handle, File m contents))
        ≡ tells (Data (take len (drop offset contents))) }
    // A WRITE of up to 261120 bytes fits in a packet.
    ensures write { (id handle offset : ℕ) (bytes : List ℕ) → length bytes ≤ 261120
        → IsBody (request_body id (Write (be64 handle) offset bytes)) }
    // A session may open a handle until 128 are open.
    ensures handles { (tree : Tree) (session : ℕ)
        → count_by (λ e. nat_eq e.1.session session) tree.handles < 128
        → has_all_handles tree session ≡ false }
{}
