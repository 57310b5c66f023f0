//! Datoms and entries.
ghost use Rattle.std.specs.Prelude.{◌≡◌, ◌≤◌, ◌++◌, length, drop, flat_map, IsTrue, IfOk, OnOk};
ghost use Rattle.std.specs.List.{list_all};
ghost use Rattle.fb_codec.specs.Answers.{Gives, GivesBy, Matches};
ghost use Rattle.fb_codec.specs.Entries.{reads_entry, has_storable_value};
ghost use Rattle.log_model.specs.Fields.{several};
ghost use Rattle.log_model.specs.Values.{is_format};
ghost use Rattle.log_model.specs.Payload.{written_format, datom_bytes, entry_bytes as model_entry_bytes, read_datom, payload_says};
ghost use Rattle.log_model.specs.Storable.{is_storable_value, IsStorable};

use crate::faults::BytesFault;
use crate::fields::{
    WRITTEN_FORMAT, get_format, get_i64, get_truth, get_u32, get_u64, misfit, put,
};
use crate::room::room_for;
use crate::values::{get_value, put_value};
use fb_memory::Memory;
use fb_values::{Datom, Datoms, Entry};
use std::alloc::Global;

/// The bytes of the shortest datom.
const LEAST_DATOM: usize = 19;

/// An entry as the payload of its record, in the format that is written.
pub fn entry_bytes(alloc: Global, entry: &Entry) -> Result<Vec<u8>, Memory>
    requires { IsStorable entry.now }
    ensures { IfOk result (λ b. b.items ≡ model_entry_bytes entry.now) }
{
    let datoms = entry.datoms.as_slice();
    let mut out = Vec::with_capacity(alloc, room_for(datoms))?;
    out.push(WRITTEN_FORMAT)?;
    put(&entry.t.to_be_bytes(), &mut out)?;
    put(&entry.instant.to_be_bytes(), &mut out)?;
    put(&(datoms.len() as u32).to_be_bytes(), &mut out)?;
    put_datoms(datoms, &mut out)?;
    Ok(out)
}

fn put_datoms(datoms: &[Datom], out: &mut Vec<u8>) -> Result<(), Memory>
    requires { IsTrue (list_all has_storable_value datoms.now) }
    ensures { OnOk result (out.new.items ≡ out.old.items ++ flat_map datom_bytes datoms.now) }
{
    for datom in datoms {
        put_datom(datom, out)?;
    }
    Ok(())
}

/// A datom's bytes, in the format that is written and without its t.
pub fn put_datom(datom: &Datom, out: &mut Vec<u8>) -> Result<(), Memory>
    requires { IsTrue (is_storable_value written_format datom.now.v) }
    ensures { OnOk result (out.new.items ≡ out.old.items ++ datom_bytes datom.now) }
{
    put(&datom.e.to_be_bytes(), out)?;
    put(&datom.a.to_be_bytes(), out)?;
    put_value(&datom.v, out)?;
    put(&[u8::from(datom.added)], out)
}

/// The entry that a payload holds, or the payload's first field that does not fit.
pub fn entry_of(alloc: Global, payload: &[u8]) -> Result<Entry, BytesFault>
    ensures { Matches result (payload_says payload.now) }
{
    let (entry, end) = get_entry(alloc, payload)?;
    if end < payload.len() {
        return Err(misfit(end));
    }
    Ok(entry)
}

fn get_entry(alloc: Global, payload: &[u8]) -> Result<(Entry, usize), BytesFault>
    ensures { Gives payload.now result (reads_entry payload.now) }
{
    let (format, behind_format) = get_format(payload, 0)?;
    let (t, behind_t) = get_u32(payload, behind_format)?;
    let (instant, behind_instant) = get_i64(payload, behind_t)?;
    let (count, behind_count) = get_u32(payload, behind_instant)?;
    let (datoms, end) = get_datoms(alloc, payload, behind_count, format, t, count)?;
    let datoms = Datoms::of(datoms);
    Ok((Entry { t, instant, datoms }, end))
}

/// So many datoms. The bytes that are there bound the room that is taken for them.
fn get_datoms(
    alloc: Global,
    bytes: &[u8],
    at: usize,
    format: u8,
    t: u32,
    count: u32,
) -> Result<(Vec<Datom>, usize), BytesFault>
    requires place { at ≤ length bytes.now }
    requires format { IsTrue (is_format format) }
    ensures { GivesBy (λ v. v.items) bytes.now result
        (several (read_datom format t) count (drop at bytes.now)) }
{
    let most = (bytes.len() - at) / LEAST_DATOM;
    let mut datoms = Vec::with_capacity(alloc, most.min(count as usize))?;
    let mut end = at;
    for _ in 0..count {
        let (datom, next) = get_datom(alloc, bytes, end, format, t)?;
        datoms.push(datom)?;
        end = next;
    }
    Ok((datoms, end))
}

/// The datom at a place, in one of the two formats and as one of this transaction.
pub fn get_datom(
    alloc: Global,
    bytes: &[u8],
    at: usize,
    format: u8,
    t: u32,
) -> Result<(Datom, usize), BytesFault>
    requires place { at ≤ length bytes.now }
    requires format { IsTrue (is_format format) }
    ensures { Gives bytes.now result (read_datom format t (drop at bytes.now)) }
{
    let (e, behind_e) = get_u64(bytes, at)?;
    let (a, behind_a) = get_u64(bytes, behind_e)?;
    let (v, behind_v) = get_value(alloc, bytes, behind_a, format)?;
    let (added, end) = get_truth(bytes, behind_v)?;
    Ok((Datom { e, a, v, t, added }, end))
}
