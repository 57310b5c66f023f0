//! The script of each session.
ghost use Rattle.std.specs.Prelude.{◌≡◌, ◌<◌, ◌++◌, IfOk, OnOk, codes, string_bytes};
ghost use Rattle.load_scripts.specs.Scripts.{installing, key, number, addition, retraction, commands, numbering, script_of};

use fb_memory::Memory;
use std::alloc::Global;

/// The sessions that record numbers. They have the numbers from 0 on.
pub const SESSIONS: u32 = 4;

/// The session that installs the attributes, which runs before the others.
pub const INSTALLER: u32 = SESSIONS;

/// A key that names its entity, and a number.
const INSTALLING: &str = concat!(
    "[:transact [{:db/ident :load/key :db/valueType :db.type/string ",
    ":db/cardinality :db.cardinality/one :db/unique :db.unique/identity} ",
    "{:db/ident :load/num :db/valueType :db.type/long ",
    ":db/cardinality :db.cardinality/one}]]\n"
);

/// The script of the session with this number, where each but the installer records `count` numbers.
pub fn script_of(alloc: Global, session: u32, count: u32) -> Result<Vec<u8>, Memory>
    ensures { IfOk result (λ script. script.items ≡ script_of session count) }
{
    if session == INSTALLER {
        return installing(alloc);
    }
    let mut script = Vec::new(alloc);
    for i in 0..count {
        put_commands(alloc, Place { session, i }, &mut script)?;
    }
    Ok(script)
}

fn installing(alloc: Global) -> Result<Vec<u8>, Memory>
    ensures { IfOk result (λ script. script.items ≡ installing) }
{
    let mut script = Vec::new(alloc);
    script.extend_from_slice(INSTALLING.as_bytes())?;
    Ok(script)
}

/// One of the numbers of a session.
#[derive(Clone, Copy)]
struct Place {
    session: u32,
    i: u32,
}

/// Records a number. Each fourth one is retracted at once.
fn put_commands(alloc: Global, place: Place, script: &mut Vec<u8>) -> Result<(), Memory>
    ensures { OnOk result
        (script.new.items ≡ script.old.items ++ commands place.session place.i) }
{
    script.extend_from_slice(addition(alloc, place)?.as_bytes())?;
    if place.i % 4 == 3 {
        script.extend_from_slice(retraction(alloc, place)?.as_bytes())?;
    }
    Ok(())
}

fn addition(alloc: Global, place: Place) -> Result<String, Memory>
    ensures { IfOk result (λ line. string_bytes line ≡ addition place.session place.i) }
{
    let key = key(alloc, place)?;
    let number = number(place);
    Ok(format!(in alloc; "[:transact [{{:load/key \"{key}\" :load/num {number}}}]]\n")?)
}

fn retraction(alloc: Global, place: Place) -> Result<String, Memory>
    ensures { IfOk result (λ line. string_bytes line ≡ retraction place.session place.i) }
{
    let key = key(alloc, place)?;
    Ok(format!(in alloc; "[:transact [[:db/retract [:load/key \"{key}\"] :load/num]]]\n")?)
}

fn key(alloc: Global, place: Place) -> Result<String, Memory>
    ensures { IfOk result (λ text. string_bytes text ≡ key place.session place.i) }
{
    let Place { session, i } = place;
    Ok(format!(in alloc; "{session}-{i}")?)
}

fn number(place: Place) -> u64
    ensures { result ≡ number place.session place.i }
{
    (1_000_003 * place.session as u64 + 7_919 * place.i as u64) % 1_000
}
