//! Whether the path of a desk's file still leads to the file that the desk has open.
ghost use Rattle.std.specs.Prelude.{◌≡◌, IfErr};
ghost use Rattle.canary_programs.specs.declared.fault.Fault.TheVariants as fault;

use canary_backup::node::Node;
use canary_programs::fault::Fault;
use std::fs::{self, Files, Metadata};
use std::io::{self, ErrorKind};
use std::os::unix::fs::MetadataExt;

/// The file that a desk has open, and the path that led to it.
#[derive(Clone, Copy, Debug)]
pub(crate) struct Seat<'a> {
    path: &'a str,
    node: Node,
}

impl<'a> Seat<'a> {
    /// That of a file which was opened by this path, which led to the file `before` that opening,
    /// or to none.
    ///
    /// # Errors
    /// `Storage` if the path leads to another file now, or to none.
    pub(crate) fn taken<P: Files>(
        files: &P,
        path: &'a str,
        before: Option<Node>,
    ) -> Result<Seat<'a>, Fault>
        ensures { IfErr result (λ f. f ≡ fault.Storage) }
    {
        let Some(node) = Node::led_to(files, path) else {
            return Err(Fault::Storage);
        };
        match before {
            Some(earlier) if earlier != node => Err(Fault::Storage),
            _ => Ok(Seat { path, node }),
        }
    }

    /// Whether the path leads to another file, or to none, or the file has another hard link. If
    /// the system does not say where it leads, as when a folder may not be searched, this is
    /// false.
    pub(crate) fn is_lost<P: Files>(&self, files: &P) -> bool {
        self.is_lost_by(fs::metadata(files, self.path))
    }

    // The same, by what was found at the path. An error counts if it says that nothing is there.
    fn is_lost_by(&self, found: io::Result<Metadata>) -> bool {
        match found {
            Ok(found) => Node::of(&found) != self.node || found.nlink() != 1,
            Err(error) => { matches!(error.kind(), ErrorKind::NotFound | ErrorKind::NotADirectory) }
        }
    }
}
