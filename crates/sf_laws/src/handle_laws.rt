//! Laws of open handles.

ghost use Rattle.std.specs.Prelude.{◌≡◌, ◌≤◌, ℕ, nat_eq, false, not, ◌||◌, List, length, count_by, Some, IsSome};
ghost use Rattle.sf_call.specs.declared.handle.Handle.{Handle as Opened};
ghost use Rattle.sf_call.specs.declared.metadata.Metadata.{Metadata};
ghost use Rattle.sf_call.specs.declared.record.Record.{Record};
ghost use Rattle.sf_call.specs.Attributes.Object.{File};
ghost use Rattle.sf_call.specs.Histories.{replay, IsLegal};
ghost use Rattle.sf_field.specs.declared.operation.PathOp.TheVariants.{OpenDir, Open};
ghost use Rattle.sf_call.specs.declared.request.Request.TheVariants.{OnPath};
ghost use Rattle.sf_path.specs.Names.{Path, IsPath};
ghost use Rattle.sf_call.specs.Tree.{Tree, label_at, object_of, handle_of};
ghost use Rattle.sf_call.specs.Calls.{apply};
ghost use Rattle.sf_field.specs.declared.attrs.Attrs.{Attrs};
ghost use Rattle.sf_field.specs.declared.open_flags.OpenFlags.{OpenFlags};
ghost use Rattle.sf_laws.specs.NewHandles.{IsJustOpened, allowing};
ghost use Rattle.sf_reply.specs.declared.reply.Reply.TheVariants.{Handle};

/// A new handle belongs to the calling session, refers to the object at the path, and has the
/// requested access mode.
pub fn new_handles()
    ensures directory { (tree : Tree) (session number moment given : ℕ) (path : Path)
        → (apply tree session number moment (OnPath OpenDir path)).reply ≡ Handle given
        → IsJustOpened (apply tree session number moment (OnPath OpenDir path)).tree
        session given path (allowing false false false) }
    ensures file { (tree : Tree) (session number moment given : ℕ) (path : Path) (flags : OpenFlags)
        (attrs : Attrs)
        → (apply tree session number moment (OnPath (Open flags attrs) path)).reply ≡ Handle given
        → IsJustOpened (apply tree session number moment (OnPath (Open flags attrs) path)).tree
        session given path (allowing (flags.read || not flags.write) flags.write flags.append) }
{}

/// After a legal history each open handle refers to an object.
pub fn open_handles()
    ensures { (history : List Record) (number : ℕ) (handle : Opened) → IsLegal history
        → handle_of (replay history).handles number ≡ Some handle
        → IsSome (object_of (replay history).objects handle.label) }
{}

/// The limits after a legal history: the size of files, the number of handles of a session, and
/// valid paths.
pub fn limits_hold()
    ensures files { (history : List Record) (label : ℕ) (m : Metadata) (contents : List ℕ)
        → IsLegal history
        → object_of (replay history).objects label ≡ Some (File m contents)
        → length contents ≤ 1099511627776 }
    ensures handles { (history : List Record) (session : ℕ) → IsLegal history
        → count_by (λ e. nat_eq e.1.session session) (replay history).handles ≤ 128 }
    ensures paths { (history : List Record) (path : Path) (label : ℕ) → IsLegal history
        → label_at (replay history).names path ≡ Some label → IsPath path }
{}
