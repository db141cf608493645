//! The files and the clock of the system. No clause can say what they give.

use crate::faults::Fault;
use crate::lock_file::FILE_BYTES;
use hotel_nights::{Day, Moment};
use hotel_streams::{IoCalls, ReadFault, read_prefix, write_bytes};
use std::fs::{self, File, OpenOptions};
use std::io;
use std::os::unix::fs::OpenOptionsExt;
use std::path::Path;
use std::time::{SystemTime, UNIX_EPOCH};

/// The days from 1970-01-01 to 2000-01-01.
const BEFORE: u64 = 10_957;

/// What time it is, in UTC.
pub(crate) fn now(rt: &HostRuntime) -> Result<Moment, Fault> {
    let Ok(time) = SystemTime::now(rt) else {
        return Err(Fault::Clock);
    };
    let Ok(since) = time.duration_since(UNIX_EPOCH) else {
        return Err(Fault::Clock);
    };
    let seconds = since.as_secs();
    let Some(number) = (seconds / 86_400).checked_sub(BEFORE) else {
        return Err(Fault::Clock);
    };
    let Ok(number) = u16::try_from(number) else {
        return Err(Fault::Clock);
    };
    let day = Day::new(number).ok_or(Fault::Clock)?;
    Moment::new(day, (seconds % 86_400) as u32).ok_or(Fault::Clock)
}

/// The bytes of a lock's file, or more than `FILE_BYTES` of them.
pub(crate) fn read_file(rt: &HostRuntime, name: &str) -> Result<Vec<u8>, Fault> {
    let Ok(mut file) = fs::open(rt, name) else {
        return Err(Fault::File);
    };
    match read_prefix(rt.alloc(), &mut file, FILE_BYTES, &mut IoCalls::none()) {
        Ok(bytes) => Ok(bytes),
        Err(ReadFault::Memory) => Err(Fault::Memory),
        Err(ReadFault::Read) => Err(Fault::File),
    }
}

/// Writes all the bytes to an open file, and waits until the disk has them.
fn fill(mut file: File, bytes: &[u8]) -> Result<(), Fault> {
    if write_bytes(&mut file, bytes, &mut IoCalls::none()).is_err() {
        return Err(Fault::File);
    }
    file.sync_all().map_err(|_| Fault::File)
}

/// Waits until the disk has the names in the file's folder.
fn sync_folder(rt: &HostRuntime, name: &str) -> Result<(), Fault> {
    let folder = match Path::new(name).parent() {
        Some(folder) if folder.as_os_str() != "" => folder,
        _ => Path::new("."),
    };
    let Ok(folder) = fs::open(rt, folder) else {
        return Err(Fault::File);
    };
    folder.sync_all().map_err(|_| Fault::File)
}

/// Writes the bytes to a new file beside this one, which its owner alone may read. Returns its name. A file that an
/// earlier call left there goes first: it may be the lock's own, by a second name.
fn write_beside(rt: &HostRuntime, name: &str, bytes: &[u8]) -> Result<String, Fault> {
    let Ok(beside) = format!(in rt.alloc(); "{name}.new") else {
        return Err(Fault::Memory);
    };
    match fs::remove_file(rt, beside.as_str()) {
        Ok(()) => {}
        Err(why) if why.kind() == io::ErrorKind::NotFound => {}
        Err(_) => return Err(Fault::File),
    }
    let mut options = OpenOptions::new();
    options.write(true).mode(0o600).create_new(true);
    let Ok(file) = options.open(rt, beside.as_str()) else {
        return Err(Fault::File);
    };
    fill(file, bytes)?;
    Ok(beside)
}

/// Makes a new file, whole or not at all: by one beside it, which gets its name too. A file that is there is refused.
pub(crate) fn create_file(rt: &HostRuntime, name: &str, bytes: &[u8]) -> Result<(), Fault> {
    let beside = write_beside(rt, name, bytes)?;
    let named = fs::hard_link(rt, beside.as_str(), name);
    let left = fs::remove_file(rt, beside.as_str());
    match named {
        Ok(()) if left.is_ok() => sync_folder(rt, name),
        Err(why) if why.kind() == io::ErrorKind::AlreadyExists => Err(Fault::Exists),
        _ => Err(Fault::File),
    }
}

/// Replaces a file whole: by a new one beside it, which then takes its name. Until then it is as it was.
pub(crate) fn replace_file(rt: &HostRuntime, name: &str, bytes: &[u8]) -> Result<(), Fault> {
    let beside = write_beside(rt, name, bytes)?;
    if fs::rename(rt, beside.as_str(), name).is_err() {
        return Err(Fault::File);
    }
    sync_folder(rt, name)
}
