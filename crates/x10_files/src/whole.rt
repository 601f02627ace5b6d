//! Writing a file, so that one which is there stays as it was until the new one is complete.
use std::fs::{self, File, Metadata, OpenOptions};
use std::io::{self, ErrorKind, Write};
use std::os::unix::fs::MetadataExt;

/// How many names for the new file next to the old one are tried.
const NAMES: u32 = 10_000;

/// Where the bytes go.
enum Target {
    /// Into what is there: a pipe, a device, or what a name of /dev or /proc leads to.
    Through,
    /// Into an ordinary file, or one that isn't there yet, by its name with links followed.
    Beside(String),
}

/// Whether a name leads to the file that is open: by the numbers of its device and of the file on it.
pub fn is_one_file(rt: &HostRuntime, file: &File, name: &str) -> io::Result<bool> {
    let opened = file.metadata()?;
    match fs::metadata(rt, name) {
        Ok(found) => Ok(found.dev() == opened.dev() && found.ino() == opened.ino()),
        Err(_) => Ok(false),
    }
}

/// Writes a file. Where that fails, an ordinary file is as it was, and nothing is left next to it.
pub fn write(rt: &HostRuntime, name: &str, bytes: &[u8]) -> io::Result<()> {
    match target_of(rt, name)? {
        Target::Through => fs::write(rt, name, bytes),
        Target::Beside(name) => replace(rt, name.as_str(), bytes),
    }
}

fn target_of(rt: &HostRuntime, name: &str) -> io::Result<Target> {
    let is_link = match fs::symlink_metadata(rt, name) {
        Ok(found) if found.is_file() => false,
        Ok(found) if found.is_symlink() => true,
        Ok(_) => return Ok(Target::Through),
        Err(error) if error.kind() == ErrorKind::NotFound => false,
        Err(error) => return Err(error),
    };
    if !is_link {
        return Ok(Target::Beside(String::from_str(rt.alloc(), name)?));
    }
    if name.starts_with("/dev/") || name.starts_with("/proc/") || !leads_to_file(rt, name) {
        return Ok(Target::Through);
    }
    let path = fs::canonicalize(rt, name)?;
    Ok(Target::Beside(String::from_str(rt.alloc(), path.as_str())?))
}

fn leads_to_file(rt: &HostRuntime, name: &str) -> bool {
    match fs::metadata(rt, name) {
        Ok(found) => found.is_file(),
        Err(_) => false,
    }
}

/// Writes a new file next to the one of this name, and gives it the name.
fn replace(rt: &HostRuntime, name: &str, bytes: &[u8]) -> io::Result<()> {
    let old = writable(rt, name)?;
    let (beside, file) = file_beside(rt, name)?;
    let done = fill(file, old, bytes).and_then(|()| fs::rename(rt, beside.as_str(), name));
    if done.is_err() {
        // where it can't be removed either, the first error is reported
        let _removed = fs::remove_file(rt, beside.as_str());
    }
    done
}

/// What is known about the file of this name, if there is one. One that may not be written stays as it is.
fn writable(rt: &HostRuntime, name: &str) -> io::Result<Option<Metadata>> {
    match OpenOptions::new().write(true).open(rt, name) {
        Ok(file) => Ok(Some(file.metadata()?)),
        Err(error) if error.kind() == ErrorKind::NotFound => Ok(None),
        Err(error) => Err(error),
    }
}

/// A new file, under the first name that is free of `NAME.0.tmp`, `NAME.1.tmp` and so on.
fn file_beside(rt: &HostRuntime, name: &str) -> io::Result<(String, File)> {
    for number in 0..NAMES {
        let beside = format!(in rt.alloc(); "{name}.{number}.tmp")?;
        match File::create_new(rt, beside.as_str()) {
            Ok(file) => return Ok((beside, file)),
            Err(error) if error.kind() == ErrorKind::AlreadyExists => {}
            Err(error) => return Err(error),
        }
    }
    Err(io::Error::from(ErrorKind::AlreadyExists))
}

/// Writes all bytes. The file has the permissions of the one that it replaces, where the system lets it have them.
fn fill(mut file: File, old: Option<Metadata>, bytes: &[u8]) -> io::Result<()> {
    if let Some(old) = old {
        let _kept = file.set_permissions(old.permissions());
    }
    file.write_all(bytes)
}
