//! Files whose sync failed. The system may go on to give bytes of such a file that the disk does not have, and takes them for written: no
//! later sync brings them to the disk, but writing them again does. So the file is marked, and written again when it is opened next.
use std::fs::{File, Metadata, Permissions};
use std::io;
use std::os::unix::fs::{FileExt, MetadataExt, PermissionsExt};

/// The mark: the sticky bit, which means nothing on a regular file. Where the system forgets it, in a crash, it forgets the bytes with it.
const UNSYNCED: u32 = 0o1000;

/// The bits of a mode that can be set.
const SETTABLE: u32 = 0o7777;

/// How many bytes are written again at once.
const PIECE: usize = 16_384;

/// Marks a file whose sync failed. A file of another user stays as it is.
pub(crate) fn mark_unsynced(file: &File) -> io::Result<()> {
    let found = file.metadata()?;
    file.set_permissions(Permissions::from_mode(settable(&found) | UNSYNCED))
}

/// Brings what a read of the file gives to the disk, where an earlier sync failed to. Until that is done the mark stays. It stays for good
/// on a file of another user, which is then written again at each opening.
pub(crate) fn settle(file: &File) -> io::Result<()> {
    let found = file.metadata()?;
    if found.mode() & UNSYNCED == 0 {
        return Ok(());
    }
    write_again(file, found.len())?;
    file.sync_all()?;
    let _ = file.set_permissions(Permissions::from_mode(settable(&found) & !UNSYNCED));
    Ok(())
}

fn settable(found: &Metadata) -> u32 {
    found.mode() & SETTABLE
}

/// Writes the bytes of a file over themselves.
fn write_again(file: &File, len: u64) -> io::Result<()> {
    let mut bytes = [0; PIECE];
    let mut at = 0;
    while at < len {
        let count = (len - at).min(PIECE as u64) as usize;
        let piece = &mut bytes[..count];
        file.read_exact_at(piece, at)?;
        file.write_all_at(piece, at)?;
        at += count as u64;
    }
    Ok(())
}
