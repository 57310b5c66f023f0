//! Tokens and strings, as the reader takes them.
ghost use Rattle.std.specs.Prelude.{◌≡◌, ℕ, ◌+◌, ◌<◌, ◌≤◌, true, ◌∷◌, List, Option, length, drop};
ghost use Rattle.edn_model.specs.Bytes.{quote, TokenEnds};
ghost use Rattle.edn_model.specs.Faults as faults;
ghost use Rattle.edn_model.specs.Faults.{TokenAt};
ghost use Rattle.edn_model.specs.Steps.{opens_of, Free};
ghost use Rattle.edn_model.specs.Form as model;
ghost use Rattle.edn_model.specs.Tokens.{IsAtom, StringAt};
ghost use Rattle.edn_form.specs.declared.form.Edn.{Edn};
ghost use Rattle.edn_core.specs.Fronts.{BeginsToken};
ghost use Rattle.edn_core.specs.Frames.{frames_of, LeadsFrom, Enters};

use crate::construct::{Construct, Frame, wants_string};
use crate::fault::EdnFault;
use crate::land::{grow, put};
use crate::progress::Progress;
use edn_form::Edn;
use edn_instant::{read_instant, read_uuid};
use edn_token::{StringStop, Token, judge, keyword_name, read_string, read_token};
use fb_text::Text;
use std::alloc::Global;

/// The token here.
pub(crate) fn token(
    alloc: Global,
    bytes: &[u8],
    frames: &mut Vec<Frame>,
    slot: &mut Option<Edn>,
    at: usize,
) -> Result<Progress, EdnFault>
    requires within { at ≤ length bytes.now }
    requires begins { BeginsToken (drop at bytes.now) }
    ensures { LeadsFrom bytes.now at frames.old.items result frames.new.items slot.new }
{
    if wants_string(frames.as_slice()) {
        return Err(EdnFault::Bad { at });
    }
    let (_, here) = bytes.split_at(at);
    match read_token(here) {
        Ok(token) => judged(alloc, frames, slot, token, at, at + token.len()),
        Err(len) => Err(EdnFault::Bad { at: at + len }),
    }
}

/// What the token from one place up to the next comes to.
fn judged(
    alloc: Global,
    frames: &mut Vec<Frame>,
    slot: &mut Option<Edn>,
    token: &str,
    at: usize,
    next: usize,
) -> Result<Progress, EdnFault>
    ensures { (bytes : List ℕ) → at < next → next ≤ length bytes
        → TokenAt (drop at bytes) token.now (drop next bytes) → TokenEnds (drop next bytes)
        → 0 < length token.now → Free (frames_of bytes frames.old.items)
        → LeadsFrom bytes at frames.old.items result frames.new.items slot.new }
{
    match judge(token) {
        Token::Nil => put(alloc, frames, slot, Edn::Nil, at, next),
        Token::Bool(b) => put(alloc, frames, slot, Edn::Bool(b), at, next),
        Token::Int(n) => put(alloc, frames, slot, Edn::Int(n), at, next),
        Token::Symbol => symbol(alloc, frames, slot, token, at, next),
        Token::Keyword => keyword(alloc, frames, slot, token, at, next),
        Token::Inst => tag(frames, Construct::Inst, at, next),
        Token::Uuid => tag(frames, Construct::Uuid, at, next),
        Token::Unsupported(what) => Err(EdnFault::Unsupported { at, what }),
        Token::Bad => Err(EdnFault::Bad { at }),
    }
}

/// The symbol from one place up to the next. What makes a text has a call of its own, so that other tokens
/// make no room for it.
fn symbol(
    alloc: Global,
    frames: &mut Vec<Frame>,
    slot: &mut Option<Edn>,
    token: &str,
    at: usize,
    next: usize,
) -> Result<Progress, EdnFault>
    ensures { (bytes : List ℕ) → IsAtom (model.symbol token.now) token.now → at < next
        → next ≤ length bytes → TokenAt (drop at bytes) token.now (drop next bytes)
        → TokenEnds (drop next bytes) → Free (frames_of bytes frames.old.items)
        → LeadsFrom bytes at frames.old.items result frames.new.items slot.new }
{
    put(
        alloc,
        frames,
        slot,
        Edn::Sym(Text::of(alloc, token)?),
        at,
        next,
    )
}

/// The keyword from one place up to the next.
fn keyword(
    alloc: Global,
    frames: &mut Vec<Frame>,
    slot: &mut Option<Edn>,
    token: &str,
    at: usize,
    next: usize,
) -> Result<Progress, EdnFault>
    ensures { (bytes : List ℕ) → IsAtom (model.keyword (drop 1 token.now)) token.now → at < next
        → next ≤ length bytes → TokenAt (drop at bytes) token.now (drop next bytes)
        → TokenEnds (drop next bytes) → Free (frames_of bytes frames.old.items)
        → LeadsFrom bytes at frames.old.items result frames.new.items slot.new }
{
    let name = Text::of(alloc, keyword_name(token))?;
    put(alloc, frames, slot, Edn::Key(name), at, next)
}

fn tag(
    frames: &mut Vec<Frame>,
    construct: Construct,
    at: usize,
    next: usize,
) -> Result<Progress, EdnFault>
    ensures { (bytes : List ℕ) (slot : Option Edn) → Enters bytes frames.old.items construct at next
        → LeadsFrom bytes at frames.old.items result frames.new.items slot }
{
    grow(frames, Frame { construct, at }, next)
}

/// The string whose first quote is here.
pub(crate) fn string(
    alloc: Global,
    bytes: &[u8],
    frames: &mut Vec<Frame>,
    slot: &mut Option<Edn>,
    at: usize,
) -> Result<Progress, EdnFault>
    requires within { at < length bytes.now }
    requires begins { drop at bytes.now ≡ quote ∷ drop (at + 1) bytes.now }
    ensures { LeadsFrom bytes.now at frames.old.items result frames.new.items slot.new }
{
    let (_, inside) = bytes.split_at(at + 1);
    match read_string(alloc, inside) {
        Ok((text, len)) => whole_string(alloc, frames, slot, text, at, at + 1 + len),
        Err(StringStop::Bad { at: len }) => Err(EdnFault::Bad { at: at + 1 + len }),
        Err(StringStop::Cut) => Err(EdnFault::Cut { at: bytes.len() }),
        Err(StringStop::Memory) => Err(EdnFault::Memory),
    }
}

/// What a string from one place up to the next comes to.
fn whole_string(
    alloc: Global,
    frames: &mut Vec<Frame>,
    slot: &mut Option<Edn>,
    text: Text,
    at: usize,
    next: usize,
) -> Result<Progress, EdnFault>
    ensures { (bytes : List ℕ) → at < next → next ≤ length bytes
        → StringAt text (drop at bytes) (drop next bytes)
        → LeadsFrom bytes at frames.old.items result frames.new.items slot.new }
{
    if wants_string(frames.as_slice()) {
        tagged(alloc, frames, slot, text, at, next)
    } else {
        put(alloc, frames, slot, Edn::Str(text), at, next)
    }
}

/// What the innermost construct, which is a tag, makes of the string after it.
fn tagged(
    alloc: Global,
    frames: &mut Vec<Frame>,
    slot: &mut Option<Edn>,
    text: Text,
    at: usize,
    next: usize,
) -> Result<Progress, EdnFault>
    requires { (bytes : List ℕ)
        → faults.wants_string (opens_of (frames_of bytes frames.now.items)) ≡ true }
    ensures { (bytes : List ℕ) → at < next → next ≤ length bytes
        → StringAt text (drop at bytes) (drop next bytes)
        → LeadsFrom bytes at frames.old.items result frames.new.items slot.new }
{
    let Some(innermost) = frames.pop() else {
        unreachable!()
    };
    match innermost.construct {
        Construct::Inst => match read_instant(text.as_str().as_bytes()) {
            Some(millis) => put(alloc, frames, slot, Edn::Inst(millis), innermost.at, next),
            None => Err(EdnFault::Bad { at }),
        },
        Construct::Uuid => match read_uuid(text.as_str()) {
            Some(uuid) => put(alloc, frames, slot, Edn::Uuid(uuid), innermost.at, next),
            None => Err(EdnFault::Bad { at }),
        },
        _ => unreachable!(),
    }
}
