//! The documented payload, with bytes changed and as it is, and values of each type.
use fb_codec::{BytesFault, entry_bytes, entry_of, get_value, put_value};
use std::alloc::Global;
use std::test::Fail;

/// An entry of two datoms, the second of which has the text `hi`. In the documented log it begins at byte 24.
const PAYLOAD: &[u8; 67] = &[
    0x02, 0x00, 0x00, 0x00, 0x01, 0x00, 0x00, 0x01, 0x8c, 0xc2, 0x51, 0xf4, 0x00, 0x00, 0x00, 0x00,
    0x02, 0x00, 0x00, 0x0c, 0x00, 0x00, 0x00, 0x00, 0x01, 0x00, 0x00, 0x00, 0x00, 0x00, 0x00, 0x00,
    0x08, 0x06, 0x00, 0x00, 0x01, 0x8c, 0xc2, 0x51, 0xf4, 0x00, 0x01, 0x00, 0x00, 0x10, 0x00, 0x00,
    0x00, 0x00, 0x01, 0x00, 0x00, 0x00, 0x00, 0x00, 0x00, 0x00, 0x07, 0x02, 0x00, 0x00, 0x00, 0x02,
    0x68, 0x69, 0x01,
];

/// The places that are changed, each with its new byte, and the byte at which the payload then breaks, if it does.
type Row = (&'static [(usize, u8)], Option<u64>);

const ROWS: &[Row] = &[
    (&[], None),
    (&[(0, 1)], None),
    (&[(0, 9)], Some(0)),
    (&[(13, 255), (14, 255), (15, 255), (16, 255)], Some(67)),
    (&[(16, 1)], Some(43)),
    (&[(33, 0)], Some(33)),
    (&[(42, 2)], Some(42)),
    (&[(59, 8)], None),
    (&[(0, 1), (59, 8)], Some(59)),
    (&[(59, 10)], Some(59)),
    (&[(60, 255), (61, 255), (62, 255), (63, 255)], Some(64)),
    (&[(59, 1), (64, 58)], Some(64)),
    (&[(64, 0xc3)], Some(64)),
    (&[(63, 1)], Some(65)),
];

fn changed(changes: &[(usize, u8)]) -> [u8; 67] {
    let mut payload = *PAYLOAD;
    for (place, byte) in changes {
        if let Some(old) = payload.get_mut(*place) {
            *old = *byte;
        }
    }
    payload
}

fn breaks_at(alloc: Global, payload: &[u8]) -> Result<Option<u64>, BytesFault> {
    match entry_of(alloc, payload) {
        Ok(_) => Ok(None),
        Err(BytesFault::At { byte }) => Ok(Some(byte)),
        Err(BytesFault::Memory) => Err(BytesFault::Memory),
    }
}

#[test]
fn payloads_with_bytes_changed_hold_an_entry_or_break_at_a_byte(
    rt: HostRuntime,
) -> Result<(), Fail> {
    for (n, (changes, byte)) in ROWS.iter().enumerate() {
        let payload = changed(changes);
        let broken = breaks_at(rt.alloc(), &payload)?;
        assert_eq!(rt; broken, *byte, "row {n}");
    }
    Ok(())
}

/// How many bytes a payload has, the documented ones or some more, and the byte at which it breaks.
const LENGTHS: &[(usize, u64)] = &[(68, 67), (66, 66), (0, 0)];

fn breaks_in_length(alloc: Global, length: usize) -> Result<Option<u64>, BytesFault> {
    let mut payload = Vec::from_slice(alloc, PAYLOAD)?;
    payload.resize(length, 0)?;
    breaks_at(alloc, &payload)
}

#[test]
fn payloads_of_another_length_break_at_their_end(rt: HostRuntime) -> Result<(), Fail> {
    for (length, byte) in LENGTHS {
        let broken = breaks_in_length(rt.alloc(), *length)?;
        assert_eq!(rt; broken, Some(*byte), "{length} bytes");
    }
    Ok(())
}

fn entry_again(alloc: Global, payload: &[u8]) -> Result<Vec<u8>, BytesFault> {
    let entry = entry_of(alloc, payload)?;
    Ok(entry_bytes(alloc, &entry)?)
}

#[test]
fn an_entry_is_written_as_it_was_read(rt: HostRuntime) -> Result<(), Fail> {
    let written = entry_again(rt.alloc(), PAYLOAD)?;
    assert_eq!(rt; written.as_slice(), PAYLOAD.as_slice());
    Ok(())
}

/// A value of each type, and a long text besides.
const VALUES: &[&[u8]] = &[
    b"\x01\0\0\0\x03a/b",
    b"\x02\0\0\0\0",
    b"\x02\0\0\0\x17ein Wort mit 23 Bytes\xc3\x9f",
    b"\x03\0",
    b"\x04\xff\xff\xff\xff\xff\xff\xff\xfe",
    b"\x05\0\0\x10\0\0\0\0\x01",
    b"\x06\0\0\x01\x8c\xc2Q\xf4\0",
    b"\x07\0\x01\x02\x03\x04\x05\x06\x07\x08\x09\x0a\x0b\x0c\x0d\x0e\x0f",
    b"\x08\0\0\0\x01/",
    b"\x09\0\0\0\x03a:b",
];

/// The value at the front of the bytes, as bytes, and the place after it.
fn value_again(alloc: Global, bytes: &[u8]) -> Result<(Vec<u8>, usize), BytesFault> {
    let (value, end) = get_value(alloc, bytes, 0, 2)?;
    let mut out = Vec::new(alloc);
    put_value(&value, &mut out)?;
    Ok((out, end))
}

#[test]
fn values_are_written_as_they_were_read(rt: HostRuntime) -> Result<(), Fail> {
    for bytes in VALUES {
        let (written, end) = value_again(rt.alloc(), bytes)?;
        assert_eq!(rt; written.as_slice(), *bytes);
        assert_eq!(rt; end, bytes.len());
    }
    Ok(())
}
