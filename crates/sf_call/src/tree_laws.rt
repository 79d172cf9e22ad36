//! Laws of trees, for proofs in other crates.

ghost use Rattle.std.specs.Prelude.{T, ◌≡◌, ◌<◌, ◌≤◌, ◌↔◌, ℕ, nat_eq, true, false, List, [], ◌∷◌, ◌++◌, length, take, filter_map, count_by, Option, Some, None, IsSome, option_and_then};
ghost use Rattle.sf_call.specs.declared.request.Request.{Request};
ghost use Rattle.sf_call.specs.declared.record.Record.{Record};
ghost use Rattle.sf_call.specs.declared.record.Record.TheVariants.{Did};
ghost use Rattle.std.specs.Map.{lookup};
ghost use Rattle.std.specs.FinMap.{is_sorted};
ghost use Rattle.sf_path.specs.Names.{Name, Path};
ghost use Rattle.sf_path.specs.Order.{path_cmp, same_path};
ghost use Rattle.sf_call.specs.Tree.{Tree, IsOrderedTree, MapsAlike, label_at, links, is_directory, is_faulty_way, after_front};
ghost use Rattle.sf_call.specs.Moves.{moved};
ghost use Rattle.sf_call.specs.declared.metadata.Metadata.{Metadata};
ghost use Rattle.sf_call.specs.declared.handle.Handle.{Handle};
ghost use Rattle.sf_call.specs.declared.lookup.Lookup.TheVariants.{Absent};
ghost use Rattle.sf_reply.specs.declared.reply.Reply.TheVariants.{Status, Data};
ghost use Rattle.sf_reply.specs.declared.reply.StatusCode.TheVariants.{Success, Failure};
ghost use Rattle.sf_call.specs.Attributes.Object.{File};
ghost use Rattle.sf_call.specs.Calls.{apply, refuses, tells, refuses_size, has_all_handles, link_to, read, write};
ghost use Rattle.sf_call.specs.ReplyKinds.{IsReplyTo, HasAllParts};
ghost use Rattle.sf_reply.specs.Longname.{HasType, longname_text};
ghost use Rattle.sf_call.specs.Listings.{entry_of, listing, listed_entry};
ghost use Rattle.sf_call.specs.Attributes.{Object, attrs_of};
ghost use Rattle.sf_call.specs.Histories.{after, replay, IsLegal};
ghost use Rattle.sf_call.specs.Leaves.{named_by, leaves_of};

/// The tree after each history is in key order, and two such trees that map alike are equal.
pub fn ordered_trees()
    ensures alike { (s t : Tree) → IsOrderedTree s → IsOrderedTree t → MapsAlike s t → s ≡ t }
    ensures replayed { (history : List Record) → IsOrderedTree (replay history) }
{}

/// The leaves of a tree have each path once, in the order of paths, with its inode number and its
/// object. After a legal history no path is missing.
#[tactic(auto, using(crate::proofs::Leaves::found_leaf, crate::proofs::Leaves::ordered_leaves, crate::proofs::Leaves::no_leaf_missing))]
pub fn leaves_of_trees()
    ensures named { (t : Tree) (path : Path) → IsOrderedTree t
        → lookup (same_path path) (leaves_of t)
        ≡ option_and_then (named_by t.objects) (label_at t.names path) }
    ensures ordered { (t : Tree) → IsOrderedTree t → T (is_sorted path_cmp (leaves_of t)) }
    ensures whole { (history : List Record) (path : Path) (label : ℕ) → IsLegal history
        → label_at (replay history).names path ≡ Some label
        → IsSome (lookup (same_path path) (leaves_of (replay history))) }
{}

/// Path resolution succeeds if and only if each proper prefix of the path is a directory.
pub fn open_ways()
    ensures { (tree : Tree) (path : Path) → (is_faulty_way tree path ≡ false)
        ↔ ((n : ℕ) → n < length path → is_directory tree (take n path) ≡ true) }
{}

/// The suffix of a path after a prefix.
pub fn fronts()
    ensures append { (front rest : Path) → after_front front (front ++ rest) ≡ Some rest }
    ensures front { (front path rest : Path) → after_front front path ≡ Some rest
        → path ≡ front ++ rest }
{}

/// A move replaces all at or below the new path by what was at or below the old path. Nothing else
/// changes.
pub fn moved_names()
    ensures to_new { (names : List (Path × ℕ)) (old new rest : Path)
        → label_at (moved names old new) (new ++ rest) ≡ label_at names (old ++ rest) }
    ensures from_old { (names : List (Path × ℕ)) (old new path rest : Path)
        → after_front old path ≡ Some rest → after_front new path ≡ None
        → label_at (moved names old new) path ≡ None }
    ensures outside { (names : List (Path × ℕ)) (old new path : Path) → after_front old path ≡ None
        → after_front new path ≡ None → label_at (moved names old new) path ≡ label_at names path }
{}

/// The kinds of reply to each request.
pub fn kinds_of_replies()
    ensures { (tree : Tree) (session number moment : ℕ) (request : Request)
        → IsReplyTo number request (apply tree session number moment request).reply }
{}

/// The tree after a record with the specified reply is the specified tree.
pub fn told_replies()
    ensures { (tree : Tree) (session number moment : ℕ) (request : Request)
        → after tree (Did number session moment request
        (apply tree session number moment request).reply)
        ≡ (apply tree session number moment request).tree }
{}

/// Listed attributes have all four fields and the file type, and each entry has a long name.
pub fn listed_attributes()
    ensures parts { (object : Object) → HasAllParts (attrs_of object) }
    ensures kind { (object : Object) → HasType (attrs_of object).permissions }
    ensures shown { (name : Name) (count : ℕ) (object : Object)
        → (entry_of name count object).attrs ≡ attrs_of object }
    ensures line { (name : Name) (count : ℕ) (object : Object)
        → longname_text (attrs_of object) count name ≡ Some (entry_of name count object).longname }
{}

/// The limits as numbers: the largest value that is accepted, and what is rejected.
pub fn limit_cases()
    // A file has at most 1099511627776 bytes after a change of its size
    ensures sized { (m : Metadata) (contents : List ℕ)
        → (refuses_size (File m contents) (Some 1099511627776) ≡ false)
        × (refuses_size (File m contents) (Some 1099511627777) ≡ true) }
    // and after a WRITE.
    ensures written { (moment byte : ℕ) (handle : Handle) (m : Metadata) (contents : List ℕ)
        → handle.write ≡ true → handle.append ≡ false
        → ((write moment 1099511627775 (byte ∷ []) (Some (handle, File m contents))).reply
        ≡ Status Success)
        × (write moment 1099511627776 (byte ∷ []) (Some (handle, File m contents)) ≡ refuses Failure) }
    // One READ returns at most 261120 bytes.
    ensures read { (len : ℕ) (handle : Handle) (m : Metadata) (contents : List ℕ)
        → handle.read ≡ true → 0 < length contents → 261120 ≤ len
        → read 0 len (Some (handle, File m contents)) ≡ tells (Data (take 261120 contents)) }
    // A session has at most 128 handles open.
    ensures open { (tree : Tree) (session : ℕ) → (has_all_handles tree session ≡ true)
        ↔ (128 ≤ count_by (λ e. nat_eq e.1.session session) tree.handles) }
    // A file has at most 1024 links.
    ensures linked { (tree : Tree) (moment label : ℕ) (new : Path)
        → (links tree.names label < 1024
        → (link_to tree moment new label Absent).reply ≡ Status Success)
        × (1024 ≤ links tree.names label → link_to tree moment new label Absent ≡ refuses Failure) }
    // One READDIR returns at most 32 entries.
    ensures listed { (tree : Tree) (last : Option Name) (directory : Path)
        → listing tree last directory
        ≡ take 32 (filter_map (listed_entry tree directory last) tree.names) }
{}
