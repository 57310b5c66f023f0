//! Files, and the standard streams in their place. Each call is one call of the system, with no buffer in between: what
//! a write took has left the program.
ghost use Rattle.std.specs.Prelude.{◌≡◌, ◌≤◌, length, None, IfOk};

use crate::opened::{Node, open, open_as};
use crate::waits::Tries;
use fb_ports::{Failed, Sink, Source};
use io_faults::raise;
use std::fs::{File, OpenOptions};
use std::io::{ErrorKind, Read, Stdin, Stdout, Write};
use std::marker::Model;
use std::{fs, io};

/// The name of standard input and standard output.
const STANDARD: &str = "-";

/// The names by which the system tells what standard input and standard output lead to.
const STANDARD_INPUT: &str = "/proc/self/fd/0";

const STANDARD_OUTPUT: &str = "/proc/self/fd/1";

#[derive(Drop)]
enum Input {
    File(File),
    Standard(Stdin),
}

impl Input {
    fn read(&mut self, buf: &mut [u8]) -> io::Result<usize>
        ensures { IfOk result (λ n. n ≤ length buf.old) }
    {
        match self {
            Input::File(file) => file.read(buf),
            Input::Standard(stdin) => stdin.read(buf),
        }
    }
}

#[derive(Drop)]
enum Output {
    File(File),
    Standard(Stdout),
}

impl Output {
    fn write(&mut self, piece: &[u8]) -> io::Result<usize>
        ensures { IfOk result (λ n. n ≤ length piece.now) }
    {
        match self {
            Output::File(file) => file.write(piece),
            Output::Standard(stdout) => stdout.write(piece),
        }
    }
}

/// A file that is read from its beginning, or standard input. A contract sees its count of faults.
#[derive(Drop)]
pub struct FileSource {
    rt: HostRuntime,
    input: Input,
    faults: u64,
}

impl Model for FileSource {
    ghost use Rattle.std.specs.Prelude.{ℕ};

    ghost Value = { ℕ };

    ghost view = { λ s. s.faults };
}

impl FileSource {
    /// The file of this name, or standard input for `-`.
    pub fn open(rt: &HostRuntime, name: &str) -> io::Result<FileSource>
        ensures { IfOk result (λ s. s ≡ 0) }
    {
        let input = if name == STANDARD {
            Input::Standard(rt.stdin())
        } else {
            Input::File(open(rt, name)?)
        };
        Ok(FileSource {
            rt: *rt,
            input,
            faults: 0,
        })
    }

    /// The file that is read, where it can be known.
    pub(crate) fn node(&self) -> io::Result<Option<Node>> {
        match &self.input {
            Input::File(file) => Ok(Node::of(&file.metadata()?)),
            Input::Standard(_) => Ok(standard_node(&self.rt, STANDARD_INPUT)),
        }
    }
}

impl Source for FileSource {
    ghost faults = { λ faults. faults };

    ghost left = { λ _. None };

    fn faults(&self) -> u64 {
        self.faults
    }

    fn read(&mut self, buf: &mut [u8]) -> Result<usize, Failed> {
        match read_at_last(&self.rt, &mut self.input, buf) {
            Ok(count) => Ok(count),
            Err(_) => {
                raise(&mut self.faults);
                Err(Failed)
            }
        }
    }
}

/// Reads once there is something to read, or the end.
fn read_at_last(rt: &HostRuntime, input: &mut Input, buf: &mut [u8]) -> io::Result<usize>
    ensures { IfOk result (λ n. n ≤ length buf.old) }
{
    let mut tries = Tries::new(*rt);
    for _ in 0..u64::MAX {
        match input.read(buf) {
            Ok(count) => return Ok(count),
            Err(e) => tries.again(e)?,
        }
    }
    Err(io::Error::from(ErrorKind::TimedOut))
}

/// A file that begins empty, or standard output. A contract sees its count of faults.
#[derive(Drop)]
pub struct FileSink {
    rt: HostRuntime,
    output: Output,
    faults: u64,
}

impl Model for FileSink {
    ghost use Rattle.std.specs.Prelude.{ℕ};

    ghost Value = { ℕ };

    ghost view = { λ s. s.faults };
}

impl FileSink {
    /// The file of this name, which is made, or emptied where it is there; or standard output for `-`.
    pub fn create(rt: &HostRuntime, name: &str) -> io::Result<FileSink>
        ensures { IfOk result (λ s. s ≡ 0) }
    {
        let sink = FileSink::open(rt, name)?;
        sink.empty()?;
        Ok(sink)
    }

    /// The file of this name with what it holds, which is made where it is missing; or standard output for `-`.
    pub(crate) fn open(rt: &HostRuntime, name: &str) -> io::Result<FileSink>
        ensures { IfOk result (λ s. s ≡ 0) }
    {
        let output = if name == STANDARD {
            Output::Standard(rt.stdout())
        } else {
            Output::File(open_as(rt, OpenOptions::new().write(true).create(true), name)?)
        };
        Ok(FileSink {
            rt: *rt,
            output,
            faults: 0,
        })
    }

    /// Empties a regular file. Others have nothing to empty, and standard output is left as it is.
    pub(crate) fn empty(&self) -> io::Result<()> {
        let Output::File(file) = &self.output else {
            return Ok(());
        };
        if file.metadata()?.is_file() {
            file.set_len(0)
        } else {
            Ok(())
        }
    }

    /// The file that is written, where it can be known.
    pub(crate) fn node(&self) -> io::Result<Option<Node>> {
        match &self.output {
            Output::File(file) => Ok(Node::of(&file.metadata()?)),
            Output::Standard(_) => Ok(standard_node(&self.rt, STANDARD_OUTPUT)),
        }
    }
}

/// The file that a standard stream leads to. Of a stream that is closed, or where the system does not tell, none is known.
fn standard_node(rt: &HostRuntime, stream: &str) -> Option<Node> {
    match fs::metadata(rt, stream) {
        Ok(found) => Node::of(&found),
        Err(_) => None,
    }
}

impl Sink for FileSink {
    ghost faults = { λ faults. faults };

    ghost contents = { λ _. None };

    fn faults(&self) -> u64 {
        self.faults
    }

    fn write(&mut self, piece: &[u8]) -> Result<usize, Failed> {
        match write_at_last(&self.rt, &mut self.output, piece) {
            Ok(count) if count > 0 || piece.is_empty() => Ok(count),
            _ => {
                raise(&mut self.faults);
                Err(Failed)
            }
        }
    }
}

/// Writes once there is room.
fn write_at_last(rt: &HostRuntime, output: &mut Output, piece: &[u8]) -> io::Result<usize>
    ensures { IfOk result (λ n. n ≤ length piece.now) }
{
    let mut tries = Tries::new(*rt);
    for _ in 0..u64::MAX {
        match output.write(piece) {
            Ok(count) => return Ok(count),
            Err(e) => tries.again(e)?,
        }
    }
    Err(io::Error::from(ErrorKind::TimedOut))
}
