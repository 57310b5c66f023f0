//! What a live session has heard and not answered yet. Each byte is looked at once, and moved once at most.
ghost use Rattle.std.specs.Prelude.{◌≡◌, ◌+◌, ◌-◌, ◌<◌, ◌≤◌, false, length, take, drop, slice_index, IfOk, IfErr, OnOk, OnErr};
ghost use Rattle.edn_model.specs.Bytes.{line_feed};
ghost use Rattle.live_model.specs.Lines.{HasNoLineFeed};
ghost use Rattle.io_faults.specs.Faults.{Rose};
ghost use Rattle.live_lines.specs.Hearing.{Hearing, nothing_yet, IsNext, RunsUpTo, Hears};
ghost use Rattle.live_lines.specs.Stops.{CountsStop};

use fb_memory::Memory;
use fb_ports::Source;
use memchr::memchr;
use std::alloc::{AllocError, Global};
use std::marker::Model;
use thiserror::Error;

/// How many bytes are asked for at a time.
const PIECE: usize = 1 << 16;

/// The longest line, in bytes, without its line feed.
const LONGEST_LINE: usize = 67_108_864;

/// What stands in front of what was heard.
#[derive(Clone, Copy, Debug, PartialEq, Eq)]
pub enum Next {
    /// A whole line of so many bytes, its line feed not counted.
    Line(usize),
    /// A line that is too long, whole or not.
    TooLong,
    /// The front of a line, or nothing; more may come.
    More,
    /// Nothing, and nothing more comes.
    Over,
}

/// Why nothing more was heard.
#[derive(Clone, Copy, Debug, PartialEq, Eq, Error)]
pub enum ListenError {
    #[error("read fault")]
    Fault,
    #[error("out of memory")]
    Memory,
}

impl From<AllocError> for ListenError {
    ghost use Rattle.live_lines.specs.declared.heard.ListenError.{ListenError};

    ghost from_gives = { λ _ e. e ≡ ListenError.Memory };

    fn from(_: AllocError) -> ListenError {
        ListenError::Memory
    }
}

/// What was heard and not passed.
#[derive(Drop)]
pub struct Heard {
    piece: Vec<u8>,
    bytes: Vec<u8>,
    /// Where the line begins that is next.
    begin: usize,
    /// No line feed is before this place in that line.
    seen: usize,
    over: bool,
}

impl Model for Heard {
    ghost use Rattle.std.specs.Prelude.{◌≡◌, ◌≤◌, ◌-◌, take, drop, vec_len};
    ghost use Rattle.live_model.specs.Lines.{HasNoLineFeed};
    ghost use Rattle.live_lines.specs.Hearing.{Hearing};

    ghost Value = { Hearing };

    ghost view = { λ h. record { pending = drop h.begin h.bytes.items; over = h.over } };

    ghost invariant = { λ h. (vec_len h.piece ≡ 65536)
        × (h.begin ≤ h.seen)
        × (h.seen ≤ vec_len h.bytes)
        × HasNoLineFeed (take (h.seen - h.begin) (drop h.begin h.bytes.items)) };
}

impl Heard {
    pub fn new(alloc: Global) -> Result<Heard, Memory>
        ensures { IfOk result (λ h. h ≡ nothing_yet) }
    {
        Ok(Heard {
            piece: vec![in alloc; 0; PIECE]?,
            bytes: Vec::new(alloc),
            begin: 0,
            seen: 0,
            over: false,
        })
    }

    /// What stands in front.
    pub fn next(&mut self) -> Next
        ensures next { IsNext self.old result }
        ensures same { self.new ≡ self.old }
    {
        let len = self.seek();
        if len > LONGEST_LINE {
            return Next::TooLong;
        }
        if len < self.pending().len() {
            return Next::Line(len);
        }
        if !self.over {
            Next::More
        } else if len == 0 {
            Next::Over
        } else {
            Next::Line(len)
        }
    }

    /// How many of the bytes in front are before a line feed, or before the end.
    fn seek(&mut self) -> usize
        ensures run { RunsUpTo self.old.pending result }
        ensures same { self.new ≡ self.old }
    {
        self.seen = line_feed_from(&self.bytes, self.seen);
        self.seen - self.begin
    }

    fn pending(&self) -> &[u8]
        ensures { result.now ≡ self.now.pending }
    {
        &self.bytes[self.begin..]
    }

    /// The first `len` bytes.
    pub fn front(&self, len: usize) -> &[u8]
        requires { len ≤ length self.now.pending }
        ensures { result.now ≡ take len self.now.pending }
    {
        &self.pending()[..len]
    }

    /// Passes a line of `len` bytes with its line feed, if it has one.
    pub fn pass(&mut self, len: usize)
        requires { len ≤ length self.old.pending }
        ensures { self.new ≡ record self.old { pending = drop (len + 1) self.old.pending } }
    {
        self.begin = (self.begin + len + 1).min(self.bytes.len());
        self.seen = self.begin;
    }

    /// Reads once, where more may come. What was passed is let go of first; an error takes and changes nothing.
    pub fn listen<I: Source>(&mut self, alloc: Global, source: &mut I) -> Result<(), ListenError>
        requires { self.old.over ≡ false }
        ensures heard { OnOk result
            (Hears self.old self.new (I.left source.old) (I.left source.new)) }
        ensures kept { OnErr result
            ((self.new ≡ self.old) × (I.left source.new ≡ I.left source.old)) }
        ensures count { OnOk result (I.faults source.new ≡ I.faults source.old) }
        ensures stop_count { IfErr result
            (λ stop. CountsStop stop (I.faults source.old) (I.faults source.new)) }
    {
        self.forget(alloc);
        self.bytes.reserve(PIECE)?;
        let Ok(count) = source.read(self.piece.as_mut_slice()) else {
            return Err(ListenError::Fault);
        };
        self.bytes.extend_from_slice(&self.piece[..count]).unwrap();
        self.over = count == 0;
        Ok(())
    }

    /// Lets go of what was passed; of a long line also the room that it took.
    fn forget(&mut self, alloc: Global)
        ensures { self.new ≡ self.old }
    {
        if self.begin == 0 {
            return;
        }
        if self.begin == self.bytes.len() && self.bytes.capacity() > 4 * PIECE {
            self.bytes = Vec::new(alloc);
        } else {
            self.bytes.drain(..self.begin);
        }
        self.seen -= self.begin;
        self.begin = 0;
    }
}

/// The place of the first line feed from a place on, or the end.
fn line_feed_from(bytes: &[u8], from: usize) -> usize
    requires { from ≤ length bytes.now }
    ensures within { (from ≤ result) × (result ≤ length bytes.now) }
    ensures plain { HasNoLineFeed (take (result - from) (drop from bytes.now)) }
    ensures found { result < length bytes.now → slice_index bytes.now result ≡ line_feed }
{
    match memchr(b'\n', &bytes[from..]) {
        Some(n) => from + n,
        None => bytes.len(),
    }
}
