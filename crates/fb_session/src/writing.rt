//! Bytes go out in as few writes as the sink takes.
ghost use Rattle.std.specs.Prelude.{◌≡◌, ◌<◌, OnOk, IfErr, length, take};
ghost use Rattle.std.specs.Io.KnownBytes.{append_known};
ghost use Rattle.fb_ports.specs.Faults.{Counts};

use fb_ports::Sink;

/// A sink failed.
#[derive(Drop)]
pub(crate) struct Broken {
    /// How many of the bytes it had taken.
    pub(crate) out: usize,
}

/// Writes the bytes. A sink that fails has taken less than the whole.
pub(crate) fn write_bytes<O: Sink>(sink: &mut O, bytes: &[u8]) -> Result<(), Broken>
    ensures whole { OnOk result
        (O.contents sink.new ≡ append_known (O.contents sink.old) bytes.now) }
    ensures short { IfErr result (λ broken. broken.out < length bytes.now) }
    ensures part { IfErr result (λ broken. O.contents sink.new
        ≡ append_known (O.contents sink.old) (take broken.out bytes.now)) }
    ensures counted { Counts result (O.faults sink.old) (O.faults sink.new) }
{
    let mut out = 0;
    while out < bytes.len() {
        let Ok(taken) = sink.write(&bytes[out..]) else {
            return Err(Broken { out });
        };
        out += taken;
    }
    Ok(())
}
