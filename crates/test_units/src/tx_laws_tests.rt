//! Entries judged by the nine laws, which no program does yet.
use fb_memory::Memory;
use fb_numbers::{DOC, TX_INSTANT};
use fb_text::Text;
use fb_values::{Datom, Datoms, Entry, Value};
use fb_view::Snapshot;
use std::alloc::Global;
use std::test::Fail;
use tx_laws::lawful;

/// The entity of transaction 1, and the first user entity.
const OWN: u64 = 13_194_139_533_313;

const FIRST: u64 = 17_592_186_044_417;

fn added(e: u64, a: u64, v: Value) -> Datom {
    Datom {
        e,
        a,
        v,
        t: 1,
        added: true,
    }
}

/// The entry at t 1 with the documents of so many new entities, rising or falling.
fn documents(alloc: Global, count: u32, rise: bool) -> Result<Entry, Memory> {
    let mut datoms = vec![in alloc; added(OWN, TX_INSTANT, Value::Instant(1))]?;
    for i in 0..count {
        let n = if rise { i } else { count - 1 - i };
        let doc = Value::Str(Text::of(alloc, "hi")?);
        datoms.push(added(FIRST + u64::from(n), DOC, doc))?;
    }
    Ok(Entry {
        t: 1,
        instant: 1,
        datoms: Datoms::of(datoms),
    })
}

/// The law that the entry breaks where it follows the built-in schema.
fn broken(alloc: Global, count: u32, rise: bool) -> Result<Option<u8>, Memory> {
    let entry = documents(alloc, count, rise)?;
    let snapshot = Snapshot::first(alloc)?;
    lawful(alloc, &entry, &snapshot, snapshot.schema())
}

const ROWS: &[(u32, bool, Option<u8>)] = &[
    (1, true, None),
    (20_000, true, None),
    (20_000, false, Some(5)),
];

#[test]
fn entries_are_judged_without_comparing_all_pairs(rt: HostRuntime) -> Result<(), Fail> {
    for (count, rise, want) in ROWS {
        let law = broken(rt.alloc(), *count, *rise)?;
        assert_eq!(rt; law, *want, "{count} documents");
    }
    Ok(())
}
