//! What a decision preserves.

ghost use Rattle.std.specs.Prelude.{◌≡◌, ℕ, Some, None};
ghost use Rattle.sf_call.specs.Tree.{Tree, object_of};
ghost use Rattle.sf_call.specs.Handles.{handle_in};
ghost use Rattle.sf_inode.specs.declared.node.Node.{Node};
ghost use Rattle.sf_inode.specs.declared.handle.OpenHandle.{OpenHandle};
ghost use Rattle.sf_inode.specs.Nodes.{blocks_left_in};
ghost use Rattle.sf_inode.specs.Stores.{StoreState, node_in, open_handle_at};
ghost use Rattle.sf_keeps.specs.Keeps.{Keeps};
ghost use Rattle.sf_walk.specs.Served.{NodesStay};

/// A law: a decision preserves a file that another session's handle opens, its holder, and its
/// number of blocks left to copy.
#[tactic(auto, using(crate::proofs::Spared::file_spared))]
pub fn spared_file()
    ensures { (s new : StoreState) (t after : Tree) (number : ℕ) → Keeps s t → Keeps new after
        → NodesStay number s new → object_of t.objects number ≡ None
        → (session handle : ℕ) (h : OpenHandle) (it : Node)
        → handle_in after session handle ≡ handle_in t session handle
        → open_handle_at s session handle ≡ Some h → node_in s.nodes h.node ≡ Some it
        → it.label ≡ h.label
        → (k : OpenHandle) × (node : Node) × (open_handle_at new session handle ≡ Some k)
        × (k.node ≡ h.node) × (node_in new.nodes h.node ≡ Some node)
        × (node.holder ≡ it.holder) × (blocks_left_in node.content ≡ blocks_left_in it.content) }
{}
