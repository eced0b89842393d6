//! Whether two paths name one file.

ghost use Rattle.std.specs.Prelude.{◌≡◌, IfOk, IfSome, string_bytes};
ghost use Rattle.plm80_host.specs.{PathParts.joined_path, Places.IsNewFile};

use crate::path_parts::folder_and_name;
use std::alloc::{AllocError, Global};
use std::fs;
use std::fs::Metadata;
use std::io::ErrorKind;
use std::os::unix::fs::MetadataExt;

/// How many symbolic links a path is followed through, as Linux does.
const LINKS: usize = 40;

/// A file or a folder of the system, by the numbers that it has there.
#[derive(Clone, Copy, PartialEq, Eq)]
pub(crate) struct Node {
    device: u64,
    number: u64,
}

impl Node {
    /// The file or folder of which the system says this.
    fn of(metadata: &Metadata) -> Node {
        Node {
            device: metadata.dev(),
            number: metadata.ino(),
        }
    }
}

/// What a path names: a file, or where one would be made.
#[derive(Drop, PartialEq, Eq)]
pub(crate) enum Place {
    /// A regular file that is there, whatever links lead to it.
    File(Node),
    /// A file of this name that would be made in this folder.
    NewFile(Node, String),
}

/// What the path names; `None` if it can't be read or written, and for a pipe or a device, which may be read and written at once.
pub(crate) fn place_of(rt: &HostRuntime, path: &str) -> Option<Place> {
    match fs::metadata(rt, path) {
        Ok(metadata) if metadata.is_file() => Some(Place::File(Node::of(&metadata))),
        Err(error) if error.kind() == ErrorKind::NotFound => new_file(rt, path),
        _ => None,
    }
}

/// The file that would be made at a path that names none, behind its symbolic links; `None` if none can be made.
fn new_file(rt: &HostRuntime, path: &str) -> Option<Place>
    ensures { IfSome result IsNewFile }
{
    let mut path = String::from_str(rt.alloc(), path).ok()?;
    for _ in 0..LINKS {
        match next_path(rt, &path)? {
            Some(target) => path = target,
            None => return in_folder(rt, &path),
        }
    }
    None
}

/// The path to which a symbolic link of this path leads; `Some(None)` if there is no such link, and `None` if it can't be read.
fn next_path(rt: &HostRuntime, path: &str) -> Option<Option<String>> {
    match fs::read_link(rt, path) {
        Ok(target) => {
            let (folder, _) = folder_and_name(path);
            Some(Some(join(rt.alloc(), folder, target.to_str()?).ok()?))
        }
        Err(error) if error.kind() == ErrorKind::NotFound => Some(None),
        Err(_) => None,
    }
}

/// A path as it is read in this folder: itself if it begins at the root. `AllocError` only if memory runs out.
fn join(alloc: Global, folder: &str, path: &str) -> Result<String, AllocError>
    ensures { IfOk result (λ joined. string_bytes joined ≡ joined_path folder.now path.now) }
{
    if path.starts_with('/') {
        String::from_str(alloc, path)
    } else {
        format!(in alloc; "{folder}/{path}")
    }
}

/// The file that would be made under a path that is no link; `None` if its folder isn't there, or if it names no file.
fn in_folder(rt: &HostRuntime, path: &str) -> Option<Place>
    ensures { IfSome result IsNewFile }
{
    let (folder, name) = folder_and_name(path);
    if name == "" || name == "." || name == ".." {
        return None;
    }
    let folder = fs::metadata(rt, folder).ok()?;
    let name = String::from_str(rt.alloc(), name).ok()?;
    Some(Place::NewFile(Node::of(&folder), name))
}
