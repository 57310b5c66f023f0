//! Where the gates of a log are, by its format: a mark, then for each record its gate, its length and its payload, and one more gate.

const MARK: usize = 15;

/// The bytes of a gate and of a length.
const GATE: usize = 1;

const LENGTH: usize = 8;

const OPEN: u8 = 1;

/// Whether the gate behind so many records is open.
pub(crate) fn is_open(log: &[u8], records: u32) -> bool {
    match gate_behind(log, records) {
        Some(gate) => gate == OPEN,
        None => false,
    }
}

fn gate_behind(log: &[u8], records: u32) -> Option<u8> {
    let mut at = MARK;
    for _ in 0..records {
        let payload = at.saturating_add(GATE + LENGTH);
        at = payload.saturating_add(length_in(log, at.saturating_add(GATE))?);
    }
    log.get(at).copied()
}

fn length_in(log: &[u8], at: usize) -> Option<usize> {
    let bytes = log.get(at..)?.first_chunk::<LENGTH>()?;
    Some(u64::from_be_bytes(*bytes) as usize)
}
