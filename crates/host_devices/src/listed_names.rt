//! The names that a folder gave last.
ghost use Rattle.std.specs.Prelude.{◌<◌, IfSome, vec_len};

use crate::file_stamp::FileStamp;
use outside::Name;
use std::alloc::{AllocError, Global};

/// A name that a folder gave, and the file that was opened under it first.
#[derive(Drop)]
struct ListedName {
    name: Name,
    opened: Option<FileStamp>,
}

/// The names that a folder gave last, ascending by bytes: none where it was not asked yet. Of these
/// no file is missing, and none is another than when it was opened first, as long as nobody else
/// writes in the folder.
#[derive(Drop)]
pub struct ListedNames {
    names: Vec<ListedName>,
}

impl ListedNames {
    /// No names.
    pub fn new(alloc: Global) -> Self {
        ListedNames {
            names: Vec::new(alloc),
        }
    }

    /// These names, which ascend.
    pub fn of(alloc: Global, names: &[Name]) -> Result<Self, AllocError> {
        let mut listed = Vec::with_capacity(alloc, names.len())?;
        for name in names {
            listed.push(ListedName {
                name: name.copy()?,
                opened: None,
            })?;
        }
        Ok(ListedNames { names: listed })
    }

    // Where a name stands, if it is one of these.
    fn place_of(&self, name: &str) -> Option<usize>
        ensures { IfSome result (λ at. at < vec_len self.now.names) }
    {
        let found = self
            .names
            .binary_search_by(|listed| listed.name.as_str().cmp(name));
        found.ok()
    }

    /// Whether a name is one of these.
    pub fn has(&self, name: &str) -> bool {
        self.place_of(name).is_some()
    }

    /// Whether the file that is opened under a name is the one that was opened first, if the name
    /// is one of these.
    pub(crate) fn admits(&mut self, name: &str, opened: FileStamp) -> bool {
        let Some(at) = self.place_of(name) else {
            return true;
        };
        let listed = &mut self.names[at];
        match listed.opened {
            Some(first) => first == opened,
            None => {
                listed.opened = Some(opened);
                true
            }
        }
    }

    /// Another file was put under a name by who reads here.
    pub fn renew(&mut self, name: &str) {
        if let Some(at) = self.place_of(name) {
            self.names[at].opened = None;
        }
    }

    /// The file of a name was taken away by who reads here.
    pub(crate) fn leave_out(&mut self, name: &str) {
        if let Some(at) = self.place_of(name) {
            drop(self.names.remove(at));
        }
    }
}
