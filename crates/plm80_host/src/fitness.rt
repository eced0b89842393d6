//! Whether a file at a place can be renamed to or removed, which the system says before anything is changed.

use crate::path_parts::folder_and_name;
use crate::system_text::count_behind;
use std::fs;
use std::fs::File;
use std::io::ErrorKind;
use std::os::fd::AsRawFd;

/// What stands before the number of the mount in what Linux says of an open file.
const LABEL: &str = "mnt_id:";

/// Whether the open file of this path is mounted there by itself, as containers do: it can be written, but no file can be renamed to it.
/// `false` if the system doesn't say.
pub(crate) fn is_mounted(rt: &HostRuntime, path: &str, file: &File) -> bool {
    let (folder, _) = folder_and_name(path);
    let Ok(folder) = File::open(rt, folder) else {
        return false;
    };
    match (mount_of(rt, file), mount_of(rt, &folder)) {
        (Some(file), Some(folder)) => file != folder,
        _ => false,
    }
}

/// The number of the mount in which an open file is; `None` if the system doesn't say, or if memory runs out.
fn mount_of(rt: &HostRuntime, file: &File) -> Option<u64> {
    let number = file.as_raw_fd();
    let path = format!(in rt.alloc(); "/proc/self/fdinfo/{number}").ok()?;
    count_behind(&fs::read_to_string(rt, &path).ok()?, LABEL)
}

/// Whether nothing may be removed from the folder of this file, as where files may only be added. The file is removed as if it were an
/// empty folder: the system never does that, and says first whether it is forbidden.
pub(crate) fn stays_in_folder(rt: &HostRuntime, path: &str) -> bool {
    match fs::remove_dir(rt, path) {
        Err(error) => error.kind() == ErrorKind::PermissionDenied,
        Ok(()) => false,
    }
}

/// Whether a rename failed because of the place, so that the file can only be written there.
pub(crate) fn is_unfit(kind: ErrorKind) -> bool {
    matches!(
        kind,
        ErrorKind::ResourceBusy | ErrorKind::PermissionDenied | ErrorKind::CrossesDevices
    )
}
