//! The lines of refusals.
ghost use Rattle.std.specs.Prelude.{OnOk};
ghost use Rattle.fb_model.specs.History.{basis};
ghost use Rattle.read_model.specs.Given.{refusal};
ghost use Rattle.read_model.specs.Components.{no_command};
ghost use Rattle.talk_model.specs.Replies.{IsLineOf};
ghost use Rattle.talk_model.specs.Looks.{refused};
ghost use Rattle.fb_reads.specs.Answers.{IsRefused};

use fb_db::Db;
use fb_memory::Memory;
use fb_names::NameStop;
use fb_preds::Selector;
use fb_replies::write_refusal;
use read_refusals::{Reason, Refusal};

pub fn refuse(line: &mut Vec<u8>, refusal: Refusal, basis: u32) -> Result<(), Memory>
    ensures { OnOk result (IsLineOf (refused basis refusal) line.new.items) }
{
    write_refusal(line, refusal.reason.keyword(), refusal.at, basis)
}

/// The refusal of a read of the view.
pub fn refuse_at<S: Selector>(
    line: &mut Vec<u8>,
    view: &Db<S>,
    reason: Reason,
    at: usize,
) -> Result<(), Memory>
    ensures { OnOk result (IsLineOf
        (refused (basis view.now.snapshot.entries) (refusal reason at)) line.new.items) }
{
    refuse(line, Refusal { reason, at }, view.snapshot.basis())
}

/// The refusal that stopped a read; where memory ran out there is no line.
pub fn refuse_stop(line: &mut Vec<u8>, stop: NameStop, basis: u32) -> Result<(), Memory>
    ensures { OnOk result (IsRefused basis stop line.new.items) }
{
    match stop {
        NameStop::Refused(refusal) => refuse(line, refusal, basis),
        NameStop::Memory => Err(Memory),
    }
}

/// The line of what is not a command.
pub fn not_a_command(line: &mut Vec<u8>, basis: u32) -> Result<(), Memory>
    ensures { OnOk result (IsLineOf (refused basis no_command) line.new.items) }
{
    let refusal = Refusal {
        reason: Reason::NotACommand,
        at: 0,
    };
    refuse(line, refusal, basis)
}
