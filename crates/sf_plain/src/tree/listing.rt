//! Directory listings.

ghost use Rattle.std.specs.Prelude.{◌≡◌, map, nat_eq, IfOk, IfSome, OnOk, OnErr};
ghost use Rattle.std.specs.Option.{option_copied, option_map};
ghost use Rattle.sf_call.specs.Changes.{changed, done};
ghost use Rattle.sf_call.specs.Changes.Change.{SetHandle};
ghost use Rattle.sf_call.specs.Handles.{opened};
ghost use Rattle.sf_call.specs.Listings.{path_of, is_past, name_past, entry_of, listed_entry, listing, listing_of, names_of, last_name};
ghost use Rattle.sf_call.specs.Calls.{read_directory};

use super::{PlainTree, name_in};
use crate::node::Node;
use sf_call::{Handle, MAX_ENTRIES};
use sf_field::ByteString;
use sf_path::{Name, Path};
use sf_reply::{Entry, Listing, Reply, StatusCode, longname};
use std::alloc::{AllocError, Global};

/// Listed entries, and the name of the last one.
#[derive(Drop)]
struct Page {
    entries: Vec<Entry>,
    last: Option<Name>,
}

fn is_past(last: &Option<Name>, name: &Name) -> bool
    ensures { result ≡ is_past last.now name.now }
{
    match last {
        None => true,
        Some(last) => last < name,
    }
}

/// The name of a path in a directory, if it follows the last one that was listed.
fn name_past<'a>(directory: &Path, last: &Option<Name>, path: &'a Path) -> Option<&'a Name>
    ensures { option_copied result ≡ name_past directory.now last.now path.now }
{
    let name = name_in(directory, path)?;
    if is_past(last, name) {
        Some(name)
    } else {
        None
    }
}

#[tactic(auto, using(crate::proofs::Listed::entry_is, sf_call::proofs::Laws::all_parts, sf_call::proofs::Laws::has_type, sf_call::proofs::Laws::has_line))]
fn entry_of(alloc: Global, name: &Name, links: u64, node: &Node) -> Result<Entry, AllocError>
    ensures { IfOk result (λ entry. entry ≡ entry_of name.now links node.now) }
{
    let attrs = node.attrs();
    let line = longname(alloc, &attrs, links, name.as_slice())?;
    Ok(Entry {
        filename: ByteString::from_slice(alloc, name.as_slice())?,
        longname: ByteString::from_vec(line)?,
        attrs,
    })
}

/// The handle with the last name that was listed.
fn with_listed(handle: &Handle, last: Option<Name>) -> Handle
    ensures { result ≡ record handle.now { listed = last } }
{
    Handle {
        session: handle.session,
        label: handle.label,
        read: handle.read,
        write: handle.write,
        append: handle.append,
        listed: last,
    }
}

impl PlainTree {
    /// The first path of an inode number.
    fn path_of(&self, label: u64) -> Option<&Path>
        ensures { option_copied result ≡ path_of self.now.names label }
    {
        'names: for (path, named) in &self.names {
            if *named == label {
                return Some(path);
            }
        }
        None
    }

    /// The listed entry of a path in a directory, and its name.
    fn listed(
        &self,
        directory: &Path,
        last: &Option<Name>,
        path: &Path,
        label: u64,
    ) -> Result<Option<(Entry, Name)>, AllocError>
        ensures entry { IfOk result (λ found. option_map (λ f. f.0) found
            ≡ listed_entry self.now directory.now last.now (path.now, label)) }
        ensures name { IfOk result (λ found. IfSome found (λ f. f.1 ≡ f.0.filename)) }
    {
        let Some(name) = name_past(directory, last, path) else {
            return Ok(None);
        };
        let Some(node) = self.objects.get(&label) else {
            return Ok(None);
        };
        let entry = entry_of(self.alloc, name, self.links(label), node)?;
        Ok(Some((entry, name.try_copy(self.alloc)?)))
    }

    #[tactic(auto, using(crate::proofs::Pages::page_begins, crate::proofs::Pages::page_grows, crate::proofs::Pages::page_skips, crate::proofs::Pages::page_full, crate::proofs::Pages::page_ends, crate::proofs::Pages::last_full, crate::proofs::Pages::last_ends))]
    fn page(&self, directory: &Path, last: &Option<Name>) -> Result<Page, AllocError>
        ensures entries { IfOk result (λ page. page.entries.items
            ≡ listing self.now last.now directory.now) }
        ensures last { IfOk result (λ page. page.last
            ≡ last_name (listing self.now last.now directory.now)) }
    {
        let mut page = Page {
            entries: Vec::new(self.alloc),
            last: None,
        };
        'names: for (path, label) in &self.names {
            if page.entries.len() == MAX_ENTRIES {
                break;
            }
            if let Some((entry, name)) = self.listed(directory, last, path, *label)? {
                page.entries.push(entry)?;
                page.last = Some(name);
            }
        }
        Ok(page)
    }

    /// The next entries of an open directory.
    fn page_of(&self, handle: &Handle) -> Result<Page, AllocError>
        ensures entries { IfOk result (λ page. page.entries.items
            ≡ listing_of self.now handle.now.listed (path_of self.now.names handle.now.label)) }
        ensures last { IfOk result (λ page. page.last
            ≡ last_name (listing_of self.now handle.now.listed
            (path_of self.now.names handle.now.label))) }
    {
        match self.path_of(handle.label) {
            Some(directory) => self.page(directory, &handle.listed),
            None => Ok(Page {
                entries: Vec::new(self.alloc),
                last: None,
            }),
        }
    }

    /// Replaces the handle with this number.
    #[tactic(auto, using(crate::proofs::Undone::set_nowhere))]
    fn set_handle(&mut self, number: u64, handle: Handle)
        ensures { self.new ≡ changed self.old (SetHandle number handle) }
    {
        if let Some(open) = self.handles.get_mut(&number) {
            *open = handle;
        }
    }

    /// READDIR.
    #[tactic(auto, using(crate::proofs::Pages::lists_opened, crate::proofs::Pages::lists_none, crate::proofs::Pages::lists_some))]
    pub(super) fn read_directory(&mut self, session: u64, number: u64) -> Result<Reply, AllocError>
        ensures reply { IfOk result (λ reply. reply
            ≡ (read_directory self.old number (opened self.old session number)).reply) }
        ensures tree { OnOk result (self.new
            ≡ done self.old (read_directory self.old number
            (opened self.old session number)).changes) }
        ensures err { OnErr result (self.new ≡ self.old) }
    {
        let tree = &*self;
        let Some(handle) = tree.handle_in(session, number) else {
            return Ok(Reply::Status(StatusCode::Failure));
        };
        let Some(node) = tree.objects.get(&handle.label) else {
            return Ok(Reply::Status(StatusCode::Failure));
        };
        if node.as_directory().is_none() {
            return Ok(Reply::Status(StatusCode::Failure));
        }
        let Page { entries, last } = tree.page_of(handle)?;
        if entries.is_empty() {
            return Ok(Reply::Status(StatusCode::EndOfFile));
        }
        let listing = Listing::from_vec(entries)?;
        let next = with_listed(handle, last);
        self.set_handle(number, next);
        Ok(Reply::Names(listing))
    }
}
