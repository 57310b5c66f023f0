//! Opening files of the system, and telling which file a name leads to.
use std::fs::{File, Metadata, OpenOptions};
use std::io::ErrorKind;
use std::os::fd::AsRawFd;
use std::os::unix::fs::{FileTypeExt, MetadataExt};
use std::{fs, io};

/// The descriptor of standard error, the last of the three standard streams.
const STANDARD_ERROR: i32 = 2;

/// A file of the system, whatever names it has.
#[derive(Clone, Copy, Debug, Default, PartialEq, Eq)]
pub(crate) struct Node {
    device: u64,
    inode: u64,
}

impl Node {
    /// The file that the system tells of, unless it is one that programs share, as a terminal or the null device is.
    pub(crate) fn of(found: &Metadata) -> Option<Node> {
        let kind = found.file_type();
        if kind.is_char_device() || kind.is_socket() {
            return None;
        }
        Some(Node {
            device: found.dev(),
            inode: found.ino(),
        })
    }
}

/// Opens a file for reading.
pub(crate) fn open(rt: &HostRuntime, name: &str) -> io::Result<File> {
    open_as(rt, OpenOptions::new().read(true), name)
}

/// Opens a regular file for reading and writing, where the name leads to one. Nothing else is opened. A missing file is made; a link to a
/// missing file does not make one.
pub(crate) fn open_regular(rt: &HostRuntime, name: &str) -> io::Result<File> {
    match open_as(
        rt,
        OpenOptions::new().read(true).write(true).create_new(true),
        name,
    ) {
        Err(e) if e.kind() == ErrorKind::AlreadyExists => {
            require_regular(&fs::metadata(rt, name)?)?;
            let file = open_as(rt, OpenOptions::new().read(true).write(true), name)?;
            require_regular(&file.metadata()?)?;
            Ok(file)
        }
        made => made,
    }
}

fn require_regular(found: &Metadata) -> io::Result<()> {
    if found.is_file() {
        Ok(())
    } else {
        Err(io::Error::from(ErrorKind::InvalidInput))
    }
}

/// Opens a directory, and nothing else.
pub(crate) fn open_directory(rt: &HostRuntime, name: &str) -> io::Result<File> {
    if fs::metadata(rt, name)?.is_dir() {
        open(rt, name)
    } else {
        Err(io::Error::from(ErrorKind::NotADirectory))
    }
}

/// Opens a file under a descriptor above those of the standard streams. Where the program was started with one of these closed, the
/// system gives its descriptor to the next file that is opened, and what is meant for the stream would be written into that file.
pub(crate) fn open_as(rt: &HostRuntime, how: &OpenOptions, name: &str) -> io::Result<File> {
    let file = how.open(rt, name)?;
    if file.as_raw_fd() > STANDARD_ERROR {
        return Ok(file);
    }
    file.try_clone()
}
