//! Hard links.

ghost use Rattle.std.specs.Prelude.{◌≡◌, nat_le, IfOk, OnOk, OnErr};
ghost use Rattle.sf_call.specs.declared.limits.TheConstants.{MAX_LINKS};
ghost use Rattle.sf_call.specs.Tree.{links, look_up, found_at};
ghost use Rattle.sf_call.specs.Changes.{changed, done};
ghost use Rattle.sf_call.specs.Changes.Change.{NewName};
ghost use Rattle.sf_call.specs.Calls.{link, link_to, unless_root};

use super::PlainTree;
use sf_call::{Lookup, MAX_LINKS};
use sf_path::Path;
use sf_reply::{Reply, StatusCode};
use std::alloc::AllocError;

impl PlainTree {
    /// The number of links of an inode number.
    pub(super) fn links(&self, label: u64) -> u64
        ensures { result ≡ links self.now.names label }
    {
        let count = self
            .names
            .iter()
            .filter(|(_, named)| **named == label)
            .count();
        count as u64
    }

    /// Whether the object has reached the limit of links.
    fn has_all_links(&self, label: u64) -> bool
        ensures { result ≡ nat_le MAX_LINKS (links self.now.names label) }
    {
        self.links(label) >= MAX_LINKS
    }

    /// Adds a path of an inode number.
    fn name_anew(&mut self, path: &Path, label: u64) -> Result<(), AllocError>
        ensures ok { OnOk result (self.new ≡ changed self.old (NewName path.now label)) }
        ensures err { OnErr result (self.new ≡ self.old) }
    {
        let name = path.share()?;
        self.names.insert(name, label)?;
        Ok(())
    }

    /// Links a file at a path that must be absent, and sets its parent's modification time.
    fn link_to(&mut self, moment: u32, new: &Path, label: u64) -> Result<Reply, AllocError>
        ensures reply { IfOk result (λ reply. reply
            ≡ (link_to self.old moment new.now label (look_up self.old new.now)).reply) }
        ensures tree { OnOk result (self.new
            ≡ done self.old
            (link_to self.old moment new.now label (look_up self.old new.now)).changes) }
        ensures err { OnErr result (self.new ≡ self.old) }
    {
        match self.place_at(new)? {
            Lookup::NoWay => Ok(Reply::Status(StatusCode::NoSuchFile)),
            Lookup::At(_) => Ok(Reply::Status(StatusCode::Failure)),
            Lookup::Absent if self.has_all_links(label) => Ok(Reply::Status(StatusCode::Failure)),
            Lookup::Absent => {
                let parent = self.directory_at(&new.parent(self.alloc)?);
                self.name_anew(new, label)?;
                self.touch(parent, moment);
                Ok(Reply::Status(StatusCode::Success))
            }
        }
    }

    /// The extension `hardlink@openssh.com`.
    #[tactic(auto, using(crate::proofs::Calls::links_object))]
    pub(super) fn link(&mut self, moment: u32, old: &Path, new: &Path) -> Result<Reply, AllocError>
        ensures reply { IfOk result (λ reply. reply
            ≡ (unless_root old.now (unless_root new.now
            (link self.old moment new.now (found_at self.old old.now)))).reply) }
        ensures tree { OnOk result (self.new
            ≡ done self.old (unless_root old.now (unless_root new.now
            (link self.old moment new.now (found_at self.old old.now)))).changes) }
        ensures err { OnErr result (self.new ≡ self.old) }
    {
        if old.is_root() || new.is_root() {
            return Ok(Reply::Status(StatusCode::Failure));
        }
        let Lookup::At(label) = self.place_at(old)? else {
            return Ok(Reply::Status(StatusCode::NoSuchFile));
        };
        let Some(node) = self.objects.get(&label) else {
            return Ok(Reply::Status(StatusCode::NoSuchFile));
        };
        if node.as_directory().is_some() {
            return Ok(Reply::Status(StatusCode::Failure));
        }
        self.link_to(moment, new, label)
    }
}
