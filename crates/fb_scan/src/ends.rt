//! Where a scan ends.
ghost use Rattle.std.specs.Prelude.{◌≡◌};
ghost use Rattle.std.specs.Option.{option_copied};
ghost use Rattle.fb_scan.specs.Ends.{is_past};
ghost use Rattle.fb_scan.specs.Knowing.{last_attribute};
ghost use Rattle.fb_scan.specs.Steps.{last_read};

use fb_index::Extent;
use fb_values::{Datom, Probe, cmp_probe};
use std::cmp::Ordering;

/// Where a scan ends. Each datom of an order after one that lies beyond the end lies beyond it too.
#[derive(Clone, Copy, Drop)]
pub enum End<'p> {
    /// With the index.
    Never,
    /// After the datoms that the probe leads to.
    Behind(&'p Probe),
    /// Before the datoms that the probe leads to.
    Before(&'p Probe),
}

impl<'p> End<'p> {
    /// The probe up to which a scan reads. Of what holds, no datom has to be known that lies beyond the end.
    pub(crate) fn last_read(self, extent: Extent) -> Option<&'p Probe>
        ensures { option_copied result ≡ last_read extent self.entry }
    {
        match extent {
            Extent::Said => None,
            Extent::Held => match self {
                End::Never => None,
                End::Behind(probe) | End::Before(probe) => Some(probe),
            },
        }
    }

    /// The attribute at which the scan ends.
    pub(crate) fn attribute(self) -> Option<u64>
        ensures { result ≡ last_attribute self.entry }
    {
        match self {
            End::Never => None,
            End::Behind(probe) | End::Before(probe) => probe.a,
        }
    }

    /// Whether the datom lies beyond the end.
    pub fn is_past(self, d: &Datom) -> bool
        ensures { result ≡ is_past self.entry d.now }
    {
        match self {
            End::Never => false,
            End::Behind(probe) => cmp_probe(probe, d) == Ordering::Less,
            End::Before(probe) => cmp_probe(probe, d) != Ordering::Greater,
        }
    }
}
