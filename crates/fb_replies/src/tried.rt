//! The reports of transactions that were tried.
ghost use Rattle.std.specs.Prelude.{◌≡◌, OnOk, map};
ghost use Rattle.edn_model.specs.Form.{forms};
ghost use Rattle.edn_model.specs.Canon.{Canon, CanonAll};
ghost use Rattle.edn_print.specs.Printed.{Appends};
ghost use Rattle.talk_model.specs.Replies.{receipt};
ghost use Rattle.fb_with.specs.Outcomes.{report_of};

use crate::tokens::{append, append_count, append_tempids, separate};
use fb_memory::Memory;
use fb_with::Tried;

/// Each report as a map.
pub(crate) fn append_reports(line: &mut Vec<u8>, reports: &[Tried]) -> Result<(), Memory>
    ensures { OnOk result (Appends
        (CanonAll (forms (map (λ one. receipt one.t one.tempids) (map report_of reports.now))))
        line.old.items line.new.items) }
{
    for (index, report) in reports.iter().enumerate() {
        separate(line, index)?;
        append_report(line, report)?;
    }
    Ok(())
}

/// `{:t 2 :tempids {"x" 17592186044418}}`
fn append_report(line: &mut Vec<u8>, report: &Tried) -> Result<(), Memory>
    ensures { OnOk result (Appends (Canon (receipt report.now.t report.now.tempids.items))
        line.old.items line.new.items) }
{
    append(line, b"{:t ")?;
    append_count(line, u64::from(report.t))?;
    append(line, b" :tempids {")?;
    append_tempids(line, &report.tempids)?;
    append(line, b"}}")
}
