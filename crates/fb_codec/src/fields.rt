//! Numbers, truths and formats. Numbers are big-endian, and signed ones are in two's complement.
ghost use Rattle.std.specs.Prelude.{◌≡◌, ◌≤◌, ◌++◌, length, drop, IsTrue, IfOk, OnOk};
ghost use Rattle.fb_codec.specs.Answers.{Gives};
ghost use Rattle.fb_codec.specs.declared.faults.BytesFault.TheVariants.{At};
ghost use Rattle.log_model.specs.Fields.{that_fits, piece, read_u8, read_u32, read_u64, read_u128, read_i64, read_truth};
ghost use Rattle.log_model.specs.Values.{is_format};

use crate::faults::BytesFault;
use fb_memory::Memory;

/// The format that has no symbols and no uris.
pub(crate) const OLDER_FORMAT: u8 = 1;

/// The format that is written.
pub const WRITTEN_FORMAT: u8 = 2;

/// The field at this place does not fit.
pub fn misfit(at: usize) -> BytesFault
    ensures { result ≡ At at }
{
    BytesFault::At { byte: at as u64 }
}

/// The next bytes.
fn get_array<const N: usize>(bytes: &[u8], at: usize) -> Result<([u8; N], usize), BytesFault>
    requires { at ≤ length bytes.now }
    ensures { Gives bytes.now result (piece N (drop at bytes.now)) }
{
    match bytes[at..].first_chunk::<N>() {
        None => Err(misfit(at)),
        Some(front) => Ok((*front, at + N)),
    }
}

pub fn get_u8(bytes: &[u8], at: usize) -> Result<(u8, usize), BytesFault>
    requires { at ≤ length bytes.now }
    ensures { Gives bytes.now result (read_u8 (drop at bytes.now)) }
{
    match bytes.get(at) {
        None => Err(misfit(at)),
        Some(byte) => Ok((*byte, at + 1)),
    }
}

pub fn get_u32(bytes: &[u8], at: usize) -> Result<(u32, usize), BytesFault>
    requires { at ≤ length bytes.now }
    ensures { Gives bytes.now result (read_u32 (drop at bytes.now)) }
{
    let (four, next) = get_array::<4>(bytes, at)?;
    Ok((u32::from_be_bytes(four), next))
}

pub fn get_u64(bytes: &[u8], at: usize) -> Result<(u64, usize), BytesFault>
    requires { at ≤ length bytes.now }
    ensures { Gives bytes.now result (read_u64 (drop at bytes.now)) }
{
    let (eight, next) = get_array::<8>(bytes, at)?;
    Ok((u64::from_be_bytes(eight), next))
}

pub fn get_u128(bytes: &[u8], at: usize) -> Result<(u128, usize), BytesFault>
    requires { at ≤ length bytes.now }
    ensures { Gives bytes.now result (read_u128 (drop at bytes.now)) }
{
    let (sixteen, next) = get_array::<16>(bytes, at)?;
    Ok((u128::from_be_bytes(sixteen), next))
}

pub fn get_i64(bytes: &[u8], at: usize) -> Result<(i64, usize), BytesFault>
    requires { at ≤ length bytes.now }
    ensures { Gives bytes.now result (read_i64 (drop at bytes.now)) }
{
    let (n, next) = get_u64(bytes, at)?;
    Ok((n.cast_signed(), next))
}

/// 0 or 1.
pub fn get_truth(bytes: &[u8], at: usize) -> Result<(bool, usize), BytesFault>
    requires { at ≤ length bytes.now }
    ensures { Gives bytes.now result (read_truth (drop at bytes.now)) }
{
    let (byte, next) = get_u8(bytes, at)?;
    match byte {
        0 => Ok((false, next)),
        1 => Ok((true, next)),
        _ => Err(misfit(at)),
    }
}

/// One of the two formats.
pub fn get_format(bytes: &[u8], at: usize) -> Result<(u8, usize), BytesFault>
    requires { at ≤ length bytes.now }
    ensures gives { Gives bytes.now result (that_fits is_format read_u8 (drop at bytes.now)) }
    ensures known { IfOk result (λ r. IsTrue (is_format r.0)) }
{
    let (format, next) = get_u8(bytes, at)?;
    match format {
        OLDER_FORMAT | WRITTEN_FORMAT => Ok((format, next)),
        _ => Err(misfit(at)),
    }
}

/// The bytes as they are.
pub fn put(bytes: &[u8], out: &mut Vec<u8>) -> Result<(), Memory>
    ensures { OnOk result (out.new.items ≡ out.old.items ++ bytes.now) }
{
    out.extend_from_slice(bytes)?;
    Ok(())
}
