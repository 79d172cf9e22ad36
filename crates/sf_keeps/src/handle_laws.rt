//! Laws of open handles, in a store that represents a tree.

ghost use Rattle.std.specs.Prelude.{◌≡◌, ℕ, ◌<◌, ◌^◌, nat_eq, length, take, map, filter_map, true, Option, Some, None, option_map};
ghost use Rattle.std.specs.List.{All, count_by};
ghost use Rattle.std.specs.Option.{option_map_or};
ghost use Rattle.sf_path.specs.Names.{Name, Path};
ghost use Rattle.sf_call.specs.Tree.{Tree, handle_of, object_of};
ghost use Rattle.sf_call.specs.Handles.{handle_in};
ghost use Rattle.sf_call.specs.Changes.{changed};
ghost use Rattle.sf_call.specs.Changes.{Change as change};
ghost use Rattle.sf_call.specs.Calls.{leave};
ghost use Rattle.sf_call.specs.Listings.{listing_of, names_of, path_of};
ghost use Rattle.sf_call.specs.declared.limits.TheConstants.{MAX_ENTRIES};
ghost use Rattle.sf_inode.specs.declared.node.Node.{Node};
ghost use Rattle.sf_inode.specs.declared.handle.Marks.{Marks};
ghost use Rattle.sf_inode.specs.declared.handle.OpenHandle.{OpenHandle};
ghost use Rattle.sf_inode.specs.Nodes.{object_in, entries_past};
ghost use Rattle.sf_keeps.specs.Steps.{walk};
ghost use Rattle.sf_keeps.specs.Listed.{node_entry};
ghost use Rattle.sf_inode.specs.Stores.{StoreState, node_in, child_of, node_entries, is_directory_at, open_handle_at, handles_of, shown_handle, after_open, handle_listed, closed, closed_all};
ghost use Rattle.sf_keeps.specs.Keeps.{Keeps, KeepsNodes};

/// The store and the tree have the same handles in each session. A handle's inode exists, and has
/// the object of its inode number. A number that is no handle in the tree is none in the store.
pub fn found_handles()
    ensures same { (s : StoreState) (t : Tree) (session number : ℕ) → Keeps s t
        → handle_in t session number
        ≡ option_map (shown_handle session) (open_handle_at s session number) }
    ensures node { (s : StoreState) (t : Tree) (session number : ℕ) (h : OpenHandle) → Keeps s t
        → open_handle_at s session number ≡ Some h
        → (node : Node) × ((node_in s.nodes h.node ≡ Some node) × (node.label ≡ h.label)
        × (object_of t.objects h.label ≡ Some (object_in node.metadata node.content))) }
    ensures free { (s : StoreState) (t : Tree) (session number : ℕ) → Keeps s t
        → handle_of t.handles number ≡ None → open_handle_at s session number ≡ None }
{}

/// A session has as many open handles in the store as in the tree.
pub fn counted_handles()
    ensures { (s : StoreState) (t : Tree) (session : ℕ) → Keeps s t
        → option_map_or (λ handles. length handles) (handles_of s session) 0
        ≡ count_by (λ e. nat_eq e.1.session session) t.handles }
{}

/// Opening an existing inode with an unused handle number above 0 opens the handle in the tree.
pub fn opened_handles()
    ensures { (s : StoreState) (t : Tree) (session number id : ℕ) (marks : Marks) (node : Node)
        → Keeps s t → 0 < number → number < 2 ^ 64 → handle_of t.handles number ≡ None
        → node_in s.nodes id ≡ Some node
        → Keeps (after_open s session number id marks)
        (changed t (change.OpenHandle number (shown_handle session (record {
          node = id;
          label = node.label;
          marks = marks;
          listed = None;
        })))) }
{}

/// Setting the last listed name of a handle sets it in the tree.
pub fn listed_handles()
    ensures { (s : StoreState) (t : Tree) (session number : ℕ) (name : Name) (h : OpenHandle)
        → Keeps s t → open_handle_at s session number ≡ Some h
        → Keeps (handle_listed s session number name) (changed t
        (change.SetHandle number (record (shown_handle session h) { listed = Some name }))) }
{}

/// Closing a handle, or all of a session, closes them in the tree. Objects without link and open
/// handle are deleted in both, and the other inodes are unchanged.
pub fn closed_handles()
    ensures one { (s : StoreState) (t : Tree) (session number : ℕ) (h : OpenHandle) → Keeps s t
        → open_handle_at s session number ≡ Some h
        → Keeps (closed s session number) (changed t (change.CloseHandle number)) }
    ensures all { (s : StoreState) (t : Tree) (session : ℕ) → Keeps s t
        → Keeps (closed_all s session) (leave t session) }
    ensures nodes { (s : StoreState) (session : ℕ) → KeepsNodes s (closed_all s session) }
{}

/// The listing of a directory. A directory's inode number determines its path. The tree lists the
/// first entries that `Store::entries_after` returns, each with its name and an existing inode. A
/// removed directory that is still open lists nothing and has no entries.
pub fn listed_entries()
    ensures path { (s : StoreState) (t : Tree) (p : Path) (dir : ℕ) (node : Node) → Keeps s t
        → walk (child_of s.nodes) s.root p ≡ Some dir → node_in s.nodes dir ≡ Some node
        → is_directory_at s.nodes dir ≡ true
        → path_of t.names node.label ≡ Some p }
    ensures listing { (s : StoreState) (t : Tree) (dir : ℕ) (node : Node) (last : Option Name)
        → Keeps s t → node_in s.nodes dir ≡ Some node → is_directory_at s.nodes dir ≡ true
        → listing_of t last (path_of t.names node.label)
        ≡ filter_map (node_entry s.nodes) (take MAX_ENTRIES
        (entries_past last (node_entries s.nodes dir))) }
    ensures nodes { (s : StoreState) (t : Tree) (dir : ℕ) (last : Option Name) → Keeps s t
        → All (λ e. (node : Node)
        × (node_in s.nodes e.1
        ≡ Some node)) (take MAX_ENTRIES (entries_past last (node_entries s.nodes dir))) }
    ensures names { (s : StoreState) (t : Tree) (dir : ℕ) (last : Option Name) → Keeps s t
        → names_of (filter_map (node_entry s.nodes)
        (take MAX_ENTRIES (entries_past last (node_entries s.nodes dir))))
        ≡ map (λ e. e.0) (take MAX_ENTRIES (entries_past last (node_entries s.nodes dir))) }
{}
