//! The folder and the name in a path.

ghost use Rattle.plm80_host.specs.PathParts.{ArePathParts};

/// The folder of a path, and the name of the file in it. The folder of a path without a slash is `.`.
pub(crate) fn folder_and_name(path: &str) -> (&str, &str)
    ensures { ArePathParts path.now result.0.now result.1.now }
{
    match path.rsplit_once('/') {
        None => (".", path),
        Some(("", name)) => ("/", name),
        Some(parts) => parts,
    }
}
