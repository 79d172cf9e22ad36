//! Deletion of unused objects.

ghost use Rattle.std.specs.Prelude.{◌≡◌, not, nat_eq, filter};
ghost use Rattle.std.specs.List.{list_any};
ghost use Rattle.sf_call.specs.Tree.{is_used};

use crate::node::Node;
use sf_call::Handle;
use sf_path::Path;
use std::collections::BTreeMap;

fn is_named(names: &BTreeMap<Path, u64>, label: u64) -> bool
    ensures { result ≡ list_any (λ e. nat_eq e.1 label) names.now.entries }
{
    names.iter().any(|(_, named)| *named == label)
}

fn is_opened(handles: &BTreeMap<u64, Handle>, label: u64) -> bool
    ensures { result ≡ list_any (λ e. nat_eq e.1.label label) handles.now.entries }
{
    handles.iter().any(|(_, handle)| handle.label == label)
}

/// Whether an inode number has a link or an open handle.
fn is_used(names: &BTreeMap<Path, u64>, handles: &BTreeMap<u64, Handle>, label: u64) -> bool
    ensures { result ≡ is_used names.now.entries handles.now.entries label }
{
    is_named(names, label) || is_opened(handles, label)
}

/// Deletes the objects that have no link and no open handle.
pub(crate) fn sweep(
    objects: &mut BTreeMap<u64, Node>,
    names: &BTreeMap<Path, u64>,
    handles: &BTreeMap<u64, Handle>,
)
    ensures { objects.new.entries
        ≡ filter (λ e. is_used names.now.entries handles.now.entries e.0) objects.old.entries }
{
    objects.retain(
        |label: &u64, node: &mut Node| -> bool
            ensures value { result
                ≡ is_used names.entry.now.entries handles.entry.now.entries label.now }
            ensures node { node.new ≡ node.old }
        { is_used(names, handles, *label) },
    );
}

/// Closes all handles of a session.
pub(crate) fn close_all(handles: &mut BTreeMap<u64, Handle>, session: u64)
    ensures { handles.new.entries
        ≡ filter (λ e. not (nat_eq e.1.session session)) handles.old.entries }
{
    handles.retain(
        |_number: &u64, handle: &mut Handle| -> bool
            ensures value { result ≡ not (nat_eq handle.old.session session) }
            ensures handle { handle.new ≡ handle.old }
        { handle.session != session },
    );
}
