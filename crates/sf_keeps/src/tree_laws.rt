//! Laws of inodes and entries. `Keeps s t` states that the store `s` represents the tree `t`:
//! inodes, entries and handles agree with it, and so do the counts. The laws relate each operation
//! on the store to a change of the tree.

ghost use Rattle.std.specs.Prelude.{◌≡◌, ◌≢◌, ◌<◌, ℕ, true, false, List, [], ◌∷◌, ◌++◌, Option, Some, None, option_map, option_and_then};
ghost use Rattle.sf_path.specs.Names.{Name, Path};
ghost use Rattle.sf_call.specs.declared.metadata.Metadata.{Metadata};
ghost use Rattle.sf_call.specs.Attributes.{Object};
ghost use Rattle.sf_call.specs.Attributes.Object.{Directory, File};
ghost use Rattle.sf_call.specs.Tree.{Tree, empty_tree, after_front, directory_at, label_at, object_of, is_faulty_way, look_up, found_at, is_empty, links};
ghost use Rattle.sf_call.specs.declared.lookup.Lookup.TheVariants.{NoWay, Absent, At};
ghost use Rattle.sf_call.specs.Changes.{changed};
ghost use Rattle.sf_call.specs.Changes.Change.{SetObject, NewPath, NewName, GonePath, Move};
ghost use Rattle.sf_inode.specs.declared.node.Node.{Node};
ghost use Rattle.sf_inode.specs.declared.node.NewNode.{NewNode};
ghost use Rattle.sf_inode.specs.Nodes.{object_in, new_content, new_node, with_metadata, with_holder};
ghost use Rattle.sf_keeps.specs.Steps.{walk};
ghost use Rattle.sf_block.specs.Contents.{FileBytes};
ghost use Rattle.sf_inode.specs.Stores.{StoreState, IsFirst, Inserted, node_in, child_of, shown_of, holder_of, looked_up, edited, unlinked, linked, relinked, bytes_of, is_file_at, is_directory_at, is_bare_at, blocks_left_at, file_set, left_set, new_entry};
ghost use Rattle.sf_inode.specs.Leaves.{AreLeaves};
ghost use Rattle.sf_keeps.specs.Keeps.{Keeps};
ghost use Rattle.sf_call.specs.Leaves.{Leaf, leaves_of};

/// A store represents at most one tree, and a new store represents the empty tree.
pub fn kept_trees()
    ensures one { (s : StoreState) (t u : Tree) → Keeps s t → Keeps s u → t ≡ u }
    ensures first { (s : StoreState) → IsFirst s → Keeps s empty_tree }
{}

/// The tree has an inode's object under the inode's number. Each inode number belongs to one inode.
/// Paths and entries lead to existing inodes. An inode's link count is its number of paths.
pub fn kept_nodes()
    ensures object { (s : StoreState) (t : Tree) (id : ℕ) (node : Node) → Keeps s t
        → node_in s.nodes id ≡ Some node
        → object_of t.objects node.label ≡ Some (object_in node.metadata node.content) }
    ensures one { (s : StoreState) (t : Tree) (i j : ℕ) (x y : Node) → Keeps s t
        → node_in s.nodes i ≡ Some x → node_in s.nodes j ≡ Some y → x.label ≡ y.label → i ≡ j }
    ensures reached { (s : StoreState) (t : Tree) (p : Path) (id : ℕ) → Keeps s t
        → walk (child_of s.nodes) s.root p ≡ Some id → (node : Node)
        × (node_in s.nodes id ≡ Some node) }
    ensures there { (s : StoreState) (t : Tree) (dir id : ℕ) (n : Name) → Keeps s t
        → child_of s.nodes dir n ≡ Some id → (node : Node) × (node_in s.nodes id ≡ Some node)
        × (0 < node.names) }
    ensures names { (s : StoreState) (t : Tree) (id : ℕ) (node : Node) → Keeps s t
        → node_in s.nodes id ≡ Some node → node.names ≡ links t.names node.label }
{}

/// `shown_of` returns the inode number and the object of an existing inode.
pub fn shown_nodes()
    ensures node { (nodes : List (Option Node)) (id label : ℕ) (object : Object)
        → shown_of nodes id ≡ Some (label, object) → (node : Node) × (node_in nodes id ≡ Some node)
        × (node.label ≡ label) × (object_in node.metadata node.content ≡ object) }
    ensures directory { (nodes : List (Option Node)) (id label : ℕ) (m : Metadata)
        → shown_of nodes id ≡ Some (label, Directory m) → is_directory_at nodes id ≡ true }
    ensures file { (nodes : List (Option Node)) (id label : ℕ) (m : Metadata) (bytes : List ℕ)
        → shown_of nodes id ≡ Some (label, File m bytes) → (is_file_at nodes id ≡ true)
        × ((bytes_of nodes id) ≡ bytes) }
{}

/// An operation leaves inodes and their holders alone, except the one that is edited, inserted, or
/// loses its entry.
pub fn other_nodes()
    ensures edited { (f : Node → Node) (s : StoreState) (id i : ℕ) → i ≢ id
        → node_in (edited f s id).nodes i ≡ node_in s.nodes i }
    ensures itself { (f : Node → Node) (s : StoreState) (id : ℕ)
        → node_in (edited f s id).nodes id ≡ option_map f (node_in s.nodes id) }
    ensures inserted { (old new : StoreState) (dir : ℕ) (n : Name) (id : ℕ) (node : Node) (i : ℕ)
        → Inserted old new (new_entry dir n id) node → i ≢ id
        → (shown_of new.nodes i ≡ shown_of old.nodes i)
        × (holder_of new.nodes i ≡ holder_of old.nodes i) }
    ensures unlinked { (s : StoreState) (dir : ℕ) (n : Name) (i : ℕ)
        → child_of s.nodes dir n ≢ Some i
        → (shown_of (unlinked s dir n).nodes i ≡ shown_of s.nodes i)
        × (holder_of (unlinked s dir n).nodes i ≡ holder_of s.nodes i) }
    ensures relinked { (s : StoreState) (dir : ℕ) (n : Name) (to : ℕ) (m : Name) (i : ℕ)
        → child_of s.nodes to m ≢ Some i
        → (shown_of (relinked s dir n to m).nodes i ≡ shown_of s.nodes i)
        × (holder_of (relinked s dir n to m).nodes i ≡ holder_of s.nodes i) }
{}

/// Path resolution, component by component. A component is present in its directory or not, and
/// resolution fails after a file or an absent one.
pub fn found_paths()
    ensures next { (s : StoreState) (t : Tree) (p : Path) (dir : ℕ) (n : Name) → Keeps s t
        → walk (child_of s.nodes) s.root p ≡ Some dir
        → walk (child_of s.nodes) s.root (p ++ n ∷ []) ≡ child_of s.nodes dir n }
    ensures label { (s : StoreState) (t : Tree) (p : Path) → Keeps s t
        → label_at t.names p
        ≡ option_map (λ node. node.label) (option_and_then (node_in s.nodes)
        (walk (child_of s.nodes) s.root p)) }
    ensures way { (s : StoreState) (t : Tree) (p : Path) (dir : ℕ) (n : Name) → Keeps s t
        → walk (child_of s.nodes) s.root p ≡ Some dir → is_directory_at s.nodes dir ≡ true
        → is_faulty_way t (p ++ n ∷ []) ≡ false }
    ensures place { (s : StoreState) (t : Tree) (p : Path) (id : ℕ) (node : Node) → Keeps s t
        → walk (child_of s.nodes) s.root p ≡ Some id → node_in s.nodes id ≡ Some node
        → look_up t p ≡ At node.label }
    ensures found { (s : StoreState) (t : Tree) (p : Path) (id : ℕ) (node : Node) → Keeps s t
        → walk (child_of s.nodes) s.root p ≡ Some id → node_in s.nodes id ≡ Some node
        → found_at t p ≡ Some (node.label, object_in node.metadata node.content) }
    ensures directory { (s : StoreState) (t : Tree) (p : Path) (dir label : ℕ) (m : Metadata)
        → Keeps s t → walk (child_of s.nodes) s.root p ≡ Some dir
        → shown_of s.nodes dir ≡ Some (label, Directory m) → directory_at t p ≡ Some (label, m) }
    ensures absent { (s : StoreState) (t : Tree) (p : Path) (dir : ℕ) (n : Name) → Keeps s t
        → walk (child_of s.nodes) s.root p ≡ Some dir → is_directory_at s.nodes dir ≡ true
        → child_of s.nodes dir n ≡ None
        → look_up t (p ++ n ∷ []) ≡ Absent }
    ensures beyond { (s : StoreState) (t : Tree) (p : Path) (dir : ℕ) (n m : Name) (q : Path)
        → Keeps s t → walk (child_of s.nodes) s.root p ≡ Some dir → child_of s.nodes dir n ≡ None
        → look_up t (p ++ n ∷ m ∷ q) ≡ NoWay }
    ensures file { (s : StoreState) (t : Tree) (p : Path) (id : ℕ) (n : Name) (q : Path) → Keeps s t
        → walk (child_of s.nodes) s.root p ≡ Some id → is_file_at s.nodes id ≡ true
        → look_up t (p ++ n ∷ q) ≡ NoWay }
    ensures empty { (s : StoreState) (t : Tree) (p : Path) (id : ℕ) → Keeps s t
        → walk (child_of s.nodes) s.root p ≡ Some id → is_empty t.names p ≡ is_bare_at s.nodes id }
{}

/// The paths of a store are those of the tree: each once, in path order, with its inode number and
/// its object.
#[tactic(auto, using(crate::proofs::LeavesFound::leaves_kept))]
pub fn kept_leaves()
    ensures { (s : StoreState) (t : Tree) (leaves : List Leaf) → Keeps s t
        → AreLeaves s.nodes (([], s.root) ∷ []) leaves → leaves ≡ leaves_of t }
{}

/// Lookups, changes of a holder, and copying of blocks leave the tree unchanged.
pub fn same_tree()
    ensures find { (s : StoreState) (t : Tree) → Keeps s t → Keeps (looked_up s) t }
    ensures hold { (holder : Option ℕ) (s : StoreState) (t : Tree) (id : ℕ) → Keeps s t
        → Keeps (edited (with_holder holder) s id) t }
    ensures copy { (left : ℕ) (s : StoreState) (t : Tree) (id : ℕ) → Keeps s t
        → Keeps (left_set s id left) t }
{}

/// Copying a file's blocks changes no holder, no object and no other file. Copying some blocks and
/// then the rest equals copying all.
pub fn copied_blocks()
    ensures shown { (left : ℕ) (s : StoreState) (id i : ℕ)
        → shown_of (left_set s id left).nodes i ≡ shown_of s.nodes i }
    ensures holders { (left : ℕ) (s : StoreState) (id i : ℕ)
        → holder_of (left_set s id left).nodes i ≡ holder_of s.nodes i }
    ensures there { (left : ℕ) (s : StoreState) (id : ℕ) → is_file_at s.nodes id ≡ true
        → blocks_left_at (left_set s id left).nodes id ≡ left }
    ensures others { (left : ℕ) (s : StoreState) (id i : ℕ) → i ≢ id
        → blocks_left_at (left_set s id left).nodes i ≡ blocks_left_at s.nodes i }
    ensures rest { (j k : ℕ) (s : StoreState) (id i : ℕ)
        → node_in (left_set (left_set s id k) id j).nodes i ≡ node_in (left_set s id j).nodes i }
{}

/// Changed metadata of an inode, or changed contents of a file, set the object of its inode number.
/// The last of several settings counts.
pub fn changed_object()
    ensures metadata { (f : Metadata → Metadata) (s : StoreState) (t : Tree) (id : ℕ) (node : Node)
        → Keeps s t → node_in s.nodes id ≡ Some node
        → Keeps (edited (with_metadata f) s id)
        (changed t (SetObject node.label (object_in (f node.metadata) node.content))) }
    ensures bytes { (new : FileBytes) (s : StoreState) (t : Tree) (id : ℕ) (node : Node) → Keeps s t
        → node_in s.nodes id ≡ Some node → is_file_at s.nodes id ≡ true
        → Keeps (file_set s id new)
        (changed t (SetObject node.label (File node.metadata new.bytes))) }
    ensures directory { (f : Metadata
        → Metadata) (s : StoreState) (t : Tree) (id label : ℕ) (m : Metadata) → Keeps s t
        → shown_of s.nodes id ≡ Some (label, Directory m)
        → Keeps (edited (with_metadata f) s id) (changed t (SetObject label (Directory (f m)))) }
    ensures file { (f : Metadata
        → Metadata) (s : StoreState) (t : Tree) (id label : ℕ) (m : Metadata) (bytes : List ℕ)
        → Keeps s t → shown_of s.nodes id ≡ Some (label, File m bytes)
        → Keeps (edited (with_metadata f) s id) (changed t (SetObject label (File (f m) bytes))) }
    ensures contents { (new : FileBytes) (s : StoreState) (t : Tree) (id label : ℕ) (m : Metadata)
        (old : List ℕ) → Keeps s t → shown_of s.nodes id ≡ Some (label, File m old)
        → Keeps (file_set s id new) (changed t (SetObject label (File m new.bytes))) }
    ensures again { (t : Tree) (label : ℕ) (o u : Object)
        → changed (changed t (SetObject label o)) (SetObject label u)
        ≡ changed t (SetObject label u) }
{}

/// A new inode with an absent name in a directory, and with an unused inode number, is a new path
/// with its object.
pub fn new_path()
    ensures { (old new : StoreState) (t : Tree) (p : Path) (dir : ℕ) (n : Name) (id : ℕ)
        (made : NewNode) → Keeps old t → Inserted old new (new_entry dir n id) (new_node made)
        → walk (child_of old.nodes) old.root p ≡ Some dir → is_directory_at old.nodes dir ≡ true
        → child_of old.nodes dir n ≡ None → object_of t.objects made.label ≡ None
        → Keeps new (changed t (NewPath (p ++ n ∷ []) made.label
        (object_in made.metadata (new_content made.file_type)))) }
{}

/// A file linked at an absent name of a directory has one more path.
pub fn new_name()
    ensures { (s : StoreState) (t : Tree) (p : Path) (dir : ℕ) (n : Name) (id : ℕ) (node : Node)
        → Keeps s t → walk (child_of s.nodes) s.root p ≡ Some dir
        → is_directory_at s.nodes dir ≡ true → child_of s.nodes dir n ≡ None
        → node_in s.nodes id ≡ Some node → is_file_at s.nodes id ≡ true → node.names < 1024
        → Keeps (linked s dir n id) (changed t (NewName (p ++ n ∷ []) node.label)) }
{}

/// Removing the entry of a file or an empty directory removes a path. Its object is deleted if it
/// has no other link and no open handle.
pub fn gone_path()
    ensures { (s : StoreState) (t : Tree) (p : Path) (dir : ℕ) (n : Name) (id : ℕ) → Keeps s t
        → walk (child_of s.nodes) s.root p ≡ Some dir → child_of s.nodes dir n ≡ Some id
        → is_bare_at s.nodes id ≡ true
        → Keeps (unlinked s dir n) (changed t (GonePath (p ++ n ∷ []))) }
{}

/// Moving an entry, but not to or below itself, moves its path with all below it. The new path is
/// absent, or names another file or an empty directory. The replaced object is deleted if it has no
/// other link and no open handle.
pub fn moved_path()
    ensures to_nothing { (s : StoreState) (t : Tree) (p : Path) (dir : ℕ) (n : Name) (id : ℕ)
        (q : Path) (to : ℕ) (m : Name) → Keeps s t → walk (child_of s.nodes) s.root p ≡ Some dir
        → child_of s.nodes dir n ≡ Some id
        → walk (child_of s.nodes) s.root q ≡ Some to → is_directory_at s.nodes to ≡ true
        → after_front (p ++ n ∷ []) (q ++ m ∷ []) ≡ None → child_of s.nodes to m ≡ None
        → Keeps (relinked s dir n to m) (changed t (Move (p ++ n ∷ []) (q ++ m ∷ []))) }
    ensures in_place { (s : StoreState) (t : Tree) (p : Path) (dir : ℕ) (n : Name) (id : ℕ)
        (q : Path) (to : ℕ) (m : Name) (target : ℕ) → Keeps s t
        → walk (child_of s.nodes) s.root p ≡ Some dir → child_of s.nodes dir n ≡ Some id
        → walk (child_of s.nodes) s.root q ≡ Some to → is_directory_at s.nodes to ≡ true
        → after_front (p ++ n ∷ []) (q ++ m ∷ []) ≡ None → child_of s.nodes to m ≡ Some target
        → is_bare_at s.nodes target ≡ true → id ≢ target
        → Keeps (relinked s dir n to m) (changed t (Move (p ++ n ∷ []) (q ++ m ∷ []))) }
{}
