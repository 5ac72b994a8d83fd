//! A file of the system, replaced as a whole.

use std::alloc::Global;
use std::fs::{self, File, OpenFile, Permissions};
use std::io::{self, ErrorKind, Write};
use std::path::{Path, PathBuf};

/// A path leads through at most this many symbolic links, as the system has it.
const MAX_LINKS: u32 = 40;

/// At most this many names are tried beside a file.
const MAX_TRIES: u32 = 1_000;

/// Returns the path that a name leads to, through symbolic links. Nothing need be there.
fn led_to(alloc: Global, rt: &impl fs::Files, name: &str) -> io::Result<PathBuf> {
    let mut path = PathBuf::from_str(alloc, name)?;
    for _ in 0..MAX_LINKS {
        match rt.read_link(alloc, path.as_str()) {
            Ok(next) => {
                path.pop();
                path.push(next.as_path())?;
            }
            Err(error) => {
                return match error.kind() {
                    ErrorKind::InvalidInput | ErrorKind::NotFound => Ok(path),
                    _ => Err(error),
                };
            }
        }
    }
    Err(io::Error::from(ErrorKind::FilesystemLoop))
}

/// Returns the permissions of the file that is to be replaced, where there is one. It is a regular file, and may be
/// written.
fn permissions_of(rt: &impl fs::Files, path: Path<'_>) -> io::Result<Option<Permissions>> {
    let metadata = match fs::metadata(rt, path) {
        Ok(metadata) => metadata,
        Err(error) if error.kind() == ErrorKind::NotFound => return Ok(None),
        Err(error) => return Err(error),
    };
    if !metadata.is_file() {
        return Err(io::Error::from(ErrorKind::InvalidInput));
    }
    File::options().write(true).open(rt, path)?;
    Ok(Some(metadata.permissions()))
}

/// Returns the name of this number beside a path.
fn beside(alloc: Global, path: Path<'_>, number: u32) -> io::Result<String> {
    let path = path.as_str();
    if number == 0 {
        return Ok(format!(in alloc; "{path}.new")?);
    }
    Ok(format!(in alloc; "{path}.new{number}")?)
}

/// Creates a file beside a path, under the first name that no file has, and returns it with its name. So no other call
/// writes to it, and what a call has left that was ended on its way does not matter.
fn create_beside<R: fs::Files>(
    alloc: Global,
    rt: &R,
    path: Path<'_>,
) -> io::Result<(String, R::File)> {
    for number in 0..MAX_TRIES {
        let name = beside(alloc, path, number)?;
        match File::create_new(rt, name.as_str()) {
            Ok(file) => return Ok((name, file)),
            Err(error) if error.kind() == ErrorKind::AlreadyExists => {}
            Err(error) => return Err(error),
        }
    }
    Err(io::Error::from(ErrorKind::AlreadyExists))
}

/// Gives a file these permissions and bytes, which are on the disk then.
fn fill<F: Write + OpenFile>(
    file: &mut F,
    permissions: Option<Permissions>,
    bytes: &[u8],
) -> io::Result<()> {
    if let Some(permissions) = permissions {
        file.set_permissions(permissions)?;
    }
    file.write_all(bytes)?;
    file.flush()?;
    file.sync_all()
}

/// Has the system put what it knows of the names in a path's folder on the disk, where it can.
fn sync_folder(rt: &impl fs::Files, path: Path<'_>) -> io::Result<()> {
    let folder = match path.parent() {
        Some(folder) if !folder.as_str().is_empty() => folder.as_str(),
        _ => ".",
    };
    fs::open(rt, folder)?.sync_all()
}

/// Puts these bytes under a name, in place of what it held. What fails leaves that as it was, and nothing of the bytes.
///
/// They are written beside the file, and take its name once they are on the disk. A symbolic link stays, and the file
/// that it leads to is replaced.
pub fn replace(alloc: Global, rt: &impl fs::Files, name: &str, bytes: &[u8]) -> io::Result<()> {
    let path = led_to(alloc, rt, name)?;
    let permissions = permissions_of(rt, path.as_path())?;
    let (new, mut file) = create_beside(alloc, rt, path.as_path())?;
    let written = fill(&mut file, permissions, bytes);
    drop(file);
    let replaced = written.and_then(|_| fs::rename(rt, new.as_str(), path.as_path()));
    if let Err(error) = replaced {
        let _ = fs::remove_file(rt, new.as_str());
        return Err(error);
    }
    let _ = sync_folder(rt, path.as_path());
    Ok(())
}
