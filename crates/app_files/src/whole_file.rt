//! Files that are written whole, or stay as they were: the new content is written beside them first.
use crate::failure::Failure;
use std::fs::{self, File, Permissions};
use std::io::{self, ErrorKind, Write};

// The number of names that are tried for a new file.
const MOST_NAMES: u32 = 100;

// Makes a new file beside the file at a path, and returns its path too.
fn new_beside(rt: &HostRuntime, path: &str) -> Result<(String, File), Failure> {
    for number in 0..MOST_NAMES {
        let beside = format!(in rt.alloc(); "{path}.new{number}")?;
        match File::create_new(rt, beside.as_str()) {
            Ok(file) => return Ok((beside, file)),
            Err(error) => {
                if error.kind() != ErrorKind::AlreadyExists {
                    return Err(Failure::Stream(error));
                }
            }
        }
    }
    Err(Failure::Stream(io::Error::from(ErrorKind::AlreadyExists)))
}

// Writes all bytes to a file, and waits until the disk has them.
fn fill(mut file: File, bytes: &[u8], permissions: Option<Permissions>) -> io::Result<()> {
    if let Some(permissions) = permissions {
        file.set_permissions(permissions)?;
    }
    file.write_all(bytes)?;
    file.sync_all()
}

// Makes a new file with these bytes beside the file at a path, and returns its path.
fn fill_beside(
    rt: &HostRuntime,
    path: &str,
    bytes: &[u8],
    permissions: Option<Permissions>,
) -> Result<String, Failure> {
    let (beside, file) = new_beside(rt, path)?;
    if let Err(error) = fill(file, bytes, permissions) {
        let _ = fs::remove_file(rt, beside.as_str());
        return Err(Failure::Stream(error));
    }
    Ok(beside)
}

/// A file that waits beside another one for its place.
#[derive(Drop)]
pub struct Staged {
    path: String,
    beside: String,
}

impl Staged {
    /// Writes these bytes into a new file beside the file at a path, with the permissions of that file. A link stays, and the new file waits for
    /// the place of its target.
    pub fn new(rt: &HostRuntime, path: &str, bytes: &[u8]) -> Result<Staged, Failure> {
        let Ok(old) = fs::metadata(rt, path) else {
            return Ok(Staged {
                path: String::from_str(rt.alloc(), path)?,
                beside: fill_beside(rt, path, bytes, None)?,
            });
        };
        let real = fs::canonicalize(rt, path)?;
        let real = real.to_str().unwrap_or(path);
        Ok(Staged {
            path: String::from_str(rt.alloc(), real)?,
            beside: fill_beside(rt, real, bytes, Some(old.permissions()))?,
        })
    }

    /// Puts the new file in the place of the other one. On failure that one stays as it was, and the new file is removed.
    pub fn put(self, rt: &HostRuntime) -> Result<(), Failure> {
        if let Err(error) = fs::rename(rt, self.beside.as_str(), self.path.as_str()) {
            self.remove(rt);
            return Err(Failure::Stream(error));
        }
        Ok(())
    }

    /// Removes the new file.
    pub fn remove(self, rt: &HostRuntime) {
        let _ = fs::remove_file(rt, self.beside.as_str());
    }
}

/// Writes a file that holds these bytes. On failure the file stays as it was, or does not exist, as before. A link stays, and
/// its target is replaced. A device or a pipe has no content to keep, so the bytes are written to it.
pub fn write_whole(rt: &HostRuntime, path: &str, bytes: &[u8]) -> Result<(), Failure> {
    if let Ok(old) = fs::metadata(rt, path) {
        if !old.is_file() {
            return Ok(fs::write(rt, path, bytes)?);
        }
    }
    Staged::new(rt, path, bytes)?.put(rt)
}

/// Returns whether two paths lead to one file.
pub fn is_same_file(rt: &HostRuntime, path: &str, other: &str) -> bool {
    match (fs::canonicalize(rt, path), fs::canonicalize(rt, other)) {
        (Ok(path), Ok(other)) => path.to_str() == other.to_str(),
        _ => false,
    }
}
