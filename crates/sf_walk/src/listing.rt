//! Directory listings.

ghost use Rattle.std.specs.Prelude.{true, ◌≡◌, Some, filter_map, IfOk, OnErr};
ghost use Rattle.sf_reply.specs.Longname.{HasType, longname_text};
ghost use Rattle.sf_call.specs.ReplyKinds.{HasAllParts};
ghost use Rattle.sf_call.specs.Tree.{Tree};
ghost use Rattle.sf_call.specs.Handles.{opened};
ghost use Rattle.sf_call.specs.Calls.{read_directory};
ghost use Rattle.sf_keeps.specs.Listed.{node_entry};
ghost use Rattle.sf_keeps.specs.Keeps.{Keeps};
ghost use Rattle.sf_walk.specs.Served.{IsCarriedOut, HoldersStay, is_success};

use sf_call::MAX_ENTRIES;
use sf_field::{Attrs, ByteString};
use sf_inode::{NodeId, Store};
use sf_path::Name;
use sf_reply::{Entry, Listing, Reply, StatusCode, longname};
use std::alloc::{AllocError, Global};

/// READDIR. Returns the reply and a copy for its record; the last listed name is then stored in the
/// handle.
pub(crate) fn read_directory(
    store: &mut Store,
    session: u64,
    number: u64,
) -> Result<(Reply, Reply), AllocError>
    ensures served { (t : Tree) → Keeps store.old t
        → IfOk result (λ replies. IsCarriedOut store.new t
        (read_directory t number (opened t session number)) replies.0) }
    ensures wants { (t : Tree) → Keeps store.old t
        → OnErr result (is_success (read_directory t number (opened t session number)).reply
        ≡ true) }
    ensures copy { IfOk result (λ replies. replies.1 ≡ replies.0) }
    ensures err { OnErr result (store.new ≡ store.old) }
    ensures look_ups { store.new.look_ups ≡ store.old.look_ups }
    ensures holders { HoldersStay store.old store.new }
{
    let Some(handle) = store.handle(session, number) else {
        return Ok((
            Reply::Status(StatusCode::Failure),
            Reply::Status(StatusCode::Failure),
        ));
    };
    if !store.is_directory(handle.node) {
        return Ok((
            Reply::Status(StatusCode::Failure),
            Reply::Status(StatusCode::Failure),
        ));
    }
    let found = store.entries_after(handle.node, handle.listed.as_ref(), MAX_ENTRIES)?;
    let Some((last, _)) = found.last() else {
        return Ok((
            Reply::Status(StatusCode::EndOfFile),
            Reply::Status(StatusCode::EndOfFile),
        ));
    };
    let entries = Reply::Names(entries_of(store, &found)?);
    let copy = entries.share()?;
    store.listed(session, number, last)?;
    Ok((entries, copy))
}

/// The entries as READDIR lists them. A name without an inode is left out.
fn entries_of(store: &Store, found: &[(Name, NodeId)]) -> Result<Listing, AllocError>
    ensures { IfOk result (λ listing. listing
        ≡ filter_map (node_entry store.now.nodes) found.now) }
{
    let mut entries = Vec::with_capacity(store.alloc(), found.len())?;
    'entries: for (name, node) in found {
        if let Some(attrs) = store.attrs(*node) {
            entries.push(entry_of(store.alloc(), name, store.links(*node), attrs)?)?;
        }
    }
    Listing::from_vec(entries)
}

/// An inode's entry in a listing, with its number of links. The filename's bytes are shared with
/// the end of its long name.
fn entry_of(alloc: Global, name: &Name, links: u64, attrs: Attrs) -> Result<Entry, AllocError>
    requires parts { HasAllParts attrs }
    requires kind { HasType attrs.permissions }
    ensures name { IfOk result (λ entry. entry.filename ≡ name.now) }
    ensures line { IfOk result (λ entry. longname_text attrs links name.now ≡ Some entry.longname) }
    ensures attrs { IfOk result (λ entry. entry.attrs ≡ attrs) }
{
    let line = ByteString::from_vec(longname(alloc, &attrs, links, name.as_slice())?)?;
    Ok(Entry {
        filename: line.part(line.len() - name.len(), line.len())?,
        longname: line,
        attrs,
    })
}
