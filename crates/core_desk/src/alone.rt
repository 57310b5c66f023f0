//! The desk, from the core that it is made of to the core that it gives back.
ghost use Rattle.std.specs.Prelude.{◌≡◌, ◌+◌, ◌^◌, ◌≤◌, [], length};
ghost use Rattle.std.specs.List.{AllByRecursion};
ghost use Rattle.std.proofs.Props.{props};
ghost use Rattle.fb_model.specs.History.{basis};
ghost use Rattle.fb_core.specs.Cores.{CoreStands};
ghost use Rattle.fb_core.specs.Worlds.{commits_behind};
ghost use Rattle.core_desk.specs.Alone.{IsAlone};

use fb_core::Core;
use std::alloc::Global;

/// The number of the one session.
pub(crate) const SESSION: u32 = 0;

/// How often the desk was called, and what it did then.
#[derive(Clone, Copy)]
pub struct Counts {
    pub calls: u64,
    pub glances: u64,
    pub loads: u64,
}

/// The desk of a core's one session.
#[derive(Drop)]
pub struct CoreDesk {
    pub(crate) alloc: Global,
    pub(crate) core: Core,
    /// The t of each transaction that was accepted.
    pub(crate) commits: Vec<u32>,
    pub(crate) counts: Counts,
    ghost alone: { IsAlone core commits.items } by { Prim.hlevel props },
    ghost few_calls: { counts.calls ≤ 2 ^ 32 },
    ghost few_glances: { counts.glances ≤ counts.calls },
    ghost few_loads: { counts.loads ≤ counts.calls },
}

impl CoreDesk {
    ghost use Rattle.fb_desk.specs.Desks.{as_opened};
    ghost use Rattle.core_desk.specs.States.{state_of};

    /// The desk of a core to which nobody has written since the opening. It takes no memory.
    pub fn new(alloc: Global, core: Core) -> CoreDesk
        requires unwritten { core.authors ≡ [] }
        ensures { state_of result ≡ as_opened core.snapshot.entries }
    {
        CoreDesk {
            alloc,
            core,
            commits: Vec::new(alloc),
            counts: Counts {
                calls: 0,
                glances: 0,
                loads: 0,
            },
        }
    }

    /// The core, in which the session wrote each entry since the opening. It takes no memory.
    pub fn close(self) -> Core
        ensures entries { result.snapshot.entries ≡ (state_of self).entries }
        ensures each_t { (state_of self).opening + length result.authors
            ≡ basis result.snapshot.entries }
        ensures by_session { AllByRecursion (λ author. author ≡ 0) result.authors }
        ensures commits { (state_of self).commits
            ≡ commits_behind (state_of self).opening 0 result.authors }
        ensures stands { CoreStands result }
    {
        // This call brings into the proof that the core represents its history.
        let _basis = self.core.basis();
        self.core
    }
}
