//! Laws of what requests change.

ghost use Rattle.std.specs.Prelude.{◌≡◌, ◌≢◌, ◌<◌, ℕ, true, List, [], ◌∷◌, Some, None, IsSome};
ghost use Rattle.sf_call.specs.declared.request.Request.{Request};
ghost use Rattle.sf_field.specs.declared.operation.PathOp.TheVariants.{Stat, SetStat, Remove, OpenDir, Open};
ghost use Rattle.sf_field.specs.declared.operation.PairOp.TheVariants.{Rename, PosixRename, Link};
ghost use Rattle.sf_field.specs.declared.operation.HandleOp.TheVariants.{FStat, FSetStat, Read};
ghost use Rattle.sf_call.specs.declared.request.Request.TheVariants.{OnPath, OnPaths, ByHandle, Write};
ghost use Rattle.sf_call.specs.declared.record.Record.{Record};
ghost use Rattle.sf_path.specs.Names.{Name, Path};
ghost use Rattle.sf_path.specs.Order.{parent};
ghost use Rattle.sf_call.specs.declared.metadata.Metadata.{Metadata};
ghost use Rattle.sf_call.specs.Tree.{Tree, label_at, object_of, handle_of, links, is_directory, is_used, kept, after_front};
ghost use Rattle.sf_call.specs.Changes.{Change, changed};
ghost use Rattle.sf_laws.specs.LeftAlone.{IsOfPath, IsOfLabel, IsOfNumber};
ghost use Rattle.sf_call.specs.Calls.{answer_to, apply, moves};
ghost use Rattle.sf_reply.specs.declared.reply.Reply.TheVariants.{Status};
ghost use Rattle.sf_reply.specs.declared.reply.StatusCode.{StatusCode};
ghost use Rattle.sf_reply.specs.declared.reply.StatusCode.TheVariants.{Success};
ghost use Rattle.sf_field.specs.declared.attrs.Attrs.{Attrs};
ghost use Rattle.sf_field.specs.declared.open_flags.OpenFlags.{OpenFlags};
ghost use Rattle.sf_field.specs.Attributes.{no_attrs};
ghost use Rattle.sf_call.specs.Attributes.{Object, modified_at};
ghost use Rattle.sf_call.specs.Attributes.Object.{Directory};
ghost use Rattle.sf_laws.specs.Own.{IsOneOf, NamesEntry, IsOwnPath, IsOwnObject, IsOwnHandle};
ghost use Rattle.sf_laws.specs.Linked.{NameOne, IsLinked, IsRemoved};
ghost use Rattle.sf_call.specs.Allowed.{IsMove, file_type_of};
ghost use Rattle.sf_call.specs.Histories.{replay, IsNewNumber, IsLegal};

/// A request changes only its own paths, handles and objects. Others are unchanged; an object may
/// also be deleted.
pub fn own_changes()
    ensures paths { (tree : Tree) (session number moment : ℕ) (request : Request) (path : Path)
        → ¬ IsOwnPath request path
        → label_at (apply tree session number moment request).tree.names path
        ≡ label_at tree.names path }
    ensures handles { (tree : Tree) (session number moment handle : ℕ) (request : Request)
        → ¬ IsOwnHandle tree session number request handle
        → handle_of (apply tree session number moment request).tree.handles handle
        ≡ handle_of tree.handles handle }
    ensures objects { (tree : Tree) (session number moment label : ℕ) (request : Request)
        → label ≢ number → ¬ IsOwnObject tree session request label
        → IsSome (object_of (apply tree session number moment request).tree.objects label)
        → object_of (apply tree session number moment request).tree.objects label
        ≡ object_of tree.objects label }
{}

/// What each kind of change leaves alone: other paths, handles and objects. An object is deleted
/// only without link and open handle.
pub fn left_alone()
    ensures paths { (tree : Tree) (change : Change) (path : Path) → ¬ IsOfPath change path
        → label_at (changed tree change).names path ≡ label_at tree.names path }
    ensures handles { (tree : Tree) (change : Change) (number : ℕ) → ¬ IsOfNumber change number
        → handle_of (changed tree change).handles number ≡ handle_of tree.handles number }
    ensures objects { (tree : Tree) (change : Change) (label : ℕ) → ¬ IsOfLabel change label
        → IsSome (object_of (changed tree change).objects label)
        → object_of (changed tree change).objects label ≡ object_of tree.objects label }
    ensures used { (tree : Tree) (change : Change) (label : ℕ) → ¬ IsOfLabel change label
        → is_used (changed tree change).names (changed tree change).handles label ≡ true
        → object_of (changed tree change).objects label ≡ object_of tree.objects label }
{}

/// A request that adds or removes an entry changes only the modification time of the directory.
pub fn parents_stay()
    ensures { (tree : Tree) (session number moment label : ℕ) (request : Request) (path : Path)
        (m : Metadata) → NamesEntry request path → label ≢ number
        → label_at tree.names (parent path) ≡ Some label
        → object_of tree.objects label ≡ Some (Directory m)
        → IsOneOf (Directory m) (Directory (modified_at moment m))
        (object_of (apply tree session number moment request).tree.objects label) }
{}

/// A request that fails changes nothing.
pub fn refusals_change_nothing()
    ensures { (tree : Tree) (session number moment : ℕ) (request : Request) (code : StatusCode)
        → (apply tree session number moment request).reply ≡ Status code → code ≢ Success
        → (apply tree session number moment request).tree ≡ tree }
{}

/// STAT, FSTAT and READ change nothing. Nor do SETSTAT and FSETSTAT without attributes, and WRITE
/// without bytes.
pub fn idle_calls()
    ensures stat { (tree : Tree) (session number moment : ℕ) (path : Path)
        → (apply tree session number moment (OnPath Stat path)).tree ≡ tree }
    ensures stat_by_handle { (tree : Tree) (session number moment handle : ℕ)
        → (apply tree session number moment (ByHandle FStat handle)).tree ≡ tree }
    ensures read { (tree : Tree) (session number moment handle offset len : ℕ)
        → (apply tree session number moment (ByHandle (Read offset len) handle)).tree ≡ tree }
    ensures set_stat { (tree : Tree) (session number moment : ℕ) (path : Path)
        → (apply tree session number moment (OnPath (SetStat no_attrs) path)).tree ≡ tree }
    ensures set_stat_by_handle { (tree : Tree) (session number moment handle : ℕ)
        → (apply tree session number moment (ByHandle (FSetStat no_attrs) handle)).tree ≡ tree }
    ensures write { (tree : Tree) (session number moment handle offset : ℕ)
        → (apply tree session number moment (Write handle offset [])).tree ≡ tree }
{}

/// No request changes an object's file type.
pub fn kinds_stay()
    ensures { (history : List Record) (number session moment label : ℕ) (request : Request)
        (before after : Object) → IsLegal history → 0 < number → IsNewNumber number history
        → object_of (replay history).objects label ≡ Some before
        → object_of (apply (replay history) session number moment request).tree.objects label
        ≡ Some after
        → file_type_of after ≡ file_type_of before }
{}

/// After a legal history each object has a link or an open handle, so `kept` changes nothing.
pub fn nothing_unused()
    ensures named_or_open { (history : List Record) (label : ℕ) → IsLegal history
        → IsSome (object_of (replay history).objects label)
        → is_used (replay history).names (replay history).handles label ≡ true }
    ensures kept { (history : List Record) → IsLegal history
        → kept (replay history) ≡ replay history }
{}

/// After a legal history an allowed move is done by posix-rename, and by RENAME if the new path is
/// absent.
pub fn moving_renames()
    ensures plain { (history : List Record) (session number moment : ℕ) (old new : Path)
        → IsLegal history → IsMove (replay history) old new
        → label_at (replay history).names new ≡ None
        → answer_to (replay history) session number moment (OnPaths Rename old new)
        ≡ moves (replay history) moment old new }
    ensures posix { (history : List Record) (session number moment : ℕ) (old new : Path)
        → IsLegal history → IsMove (replay history) old new
        → answer_to (replay history) session number moment (OnPaths PosixRename old new)
        ≡ moves (replay history) moment old new }
{}

/// An allowed move is still allowed after a request whose own paths are all below the old one.
pub fn still_moves()
    ensures { (history : List Record) (number session moment : ℕ) (request : Request)
        (old new : Path)
        → IsLegal history → 0 < number → IsNewNumber number history
        → ((path : Path) → IsOwnPath request path
        → (name : Name) × (rest : Path) × (after_front old path ≡ Some (name ∷ rest)))
        → IsMove (replay history) old new
        → IsMove (apply (replay history) session number moment request).tree old new }
{}

/// A successful link: the new path was absent, and both paths name the file. It has one more link,
/// at most 1024.
pub fn linked_files()
    ensures { (tree : Tree) (session number moment : ℕ) (old new : Path)
        → (apply tree session number moment (OnPaths Link old new)).reply ≡ Status Success
        → IsLinked tree (apply tree session number moment (OnPaths Link old new)).tree old new }
{}

/// Hard links. After a legal history, requests on two paths of one object have equal replies and
/// changes. The two paths name one object until a request creates, removes or moves one of them.
pub fn names_of_one_file()
    ensures stat { (history : List Record) (session number moment : ℕ) (path other : Path)
        → IsLegal history → NameOne (replay history) path other
        → answer_to (replay history) session number moment (OnPath Stat path)
        ≡ answer_to (replay history) session number moment (OnPath Stat other) }
    ensures set_stat { (history : List Record) (session number moment : ℕ) (attrs : Attrs)
        (path other : Path) → IsLegal history → NameOne (replay history) path other
        → answer_to (replay history) session number moment (OnPath (SetStat attrs) path)
        ≡ answer_to (replay history) session number moment (OnPath (SetStat attrs) other) }
    ensures open { (history : List Record) (session number moment : ℕ) (flags : OpenFlags)
        (attrs : Attrs) (path other : Path) → IsLegal history
        → NameOne (replay history) path other
        → answer_to (replay history) session number moment (OnPath (Open flags attrs) path)
        ≡ answer_to (replay history) session number moment (OnPath (Open flags attrs) other) }
    ensures open_directory { (history : List Record) (session number moment : ℕ)
        (path other : Path) → IsLegal history → NameOne (replay history) path other
        → answer_to (replay history) session number moment (OnPath OpenDir path)
        ≡ answer_to (replay history) session number moment (OnPath OpenDir other) }
    ensures still { (tree : Tree) (session number moment : ℕ) (request : Request)
        (path other : Path) → NameOne tree path other → ¬ IsOwnPath request path
        → ¬ IsOwnPath request other
        → NameOne (apply tree session number moment request).tree path other }
{}

/// A successful REMOVE after a legal history: the file loses one link. It is unchanged while it has
/// a link or an open handle.
pub fn removed_names()
    ensures { (history : List Record) (session number moment : ℕ) (path : Path) → IsLegal history
        → (apply (replay history) session number moment (OnPath Remove path)).reply ≡ Status Success
        → IsRemoved (replay history)
        (apply (replay history) session number moment (OnPath Remove path)).tree path }
{}

/// After a legal history each directory has one path.
pub fn directory_links()
    ensures { (history : List Record) (path : Path) (label : ℕ) → IsLegal history
        → is_directory (replay history) path ≡ true
        → label_at (replay history).names path ≡ Some label
        → links (replay history).names label ≡ 1 }
{}
