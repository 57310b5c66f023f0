//! The lines themselves. Each call puts the whole line, with its line feed, in place of what the buffer held. Where memory runs
//! out nothing is promised of the buffer.
ghost use Rattle.std.specs.Prelude.{◌≡◌, ◌++◌, IsTrue, OnOk, map};
ghost use Rattle.talk_model.specs.Replies.{receipt, basis_reply, done_reply, datoms_reply, transactions_reply, pull_reply, with_reply, tuples_reply, refusal_reply, fault_reply, IsLineOf};
ghost use Rattle.edn_model.specs.Form.{Form};
ghost use Rattle.edn_form.specs.View.{form_of};
ghost use Rattle.fb_with.specs.Outcomes.{report_of};
ghost use Rattle.fb_tuples.specs.Lent.{model_row};
ghost use Rattle.fb_replies.specs.Texts.{have_texts, entries_have_texts, rows_have_texts};
ghost use Rattle.fb_replies.specs.Faults.{word_of, place_text};

use crate::datoms::{append_lent, append_transactions};
use crate::tokens::{append, append_count, append_tempids, begin};
use crate::tried::append_reports;
use crate::tuples::append_rows;
use edn_form::Edn;
use edn_print::print;
use fb_memory::Memory;
use fb_schema::Schema;
use fb_text::Text;
use fb_tuples::LentRow;
use fb_values::{Datom, Entry};
use fb_with::Tried;

/// The reply to a transaction that the log did not take.
#[derive(Clone, Copy)]
pub enum LogFault {
    /// The log did not take this transaction.
    Failed,
    /// It did not take an earlier one, and takes no more.
    Stopped,
}

impl LogFault {
    /// The keyword of the reply, without its colon.
    fn word(self) -> &'static str
        ensures { result.now ≡ word_of self }
    {
        match self {
            LogFault::Failed => "log",
            LogFault::Stopped => "log-stopped",
        }
    }
}

/// `{:t 1 :tempids {"x" 17592186044417}}`: the transaction was recorded as t, and its tempids are these entities.
pub fn write_receipt(line: &mut Vec<u8>, t: u32, tempids: &[(Text, u64)]) -> Result<(), Memory>
    ensures { OnOk result (IsLineOf (receipt t tempids.now) line.new.items) }
{
    begin(line, b"{:t ")?;
    append_count(line, u64::from(t))?;
    append(line, b" :tempids {")?;
    append_tempids(line, tempids)?;
    append(line, b"}}\n")
}

/// `{:basis 3}`: what there is to see.
pub fn write_basis(line: &mut Vec<u8>, basis: u32) -> Result<(), Memory>
    ensures { OnOk result (IsLineOf (basis_reply basis) line.new.items) }
{
    begin(line, b"{:basis ")?;
    append_count(line, u64::from(basis))?;
    append(line, b"}\n")
}

/// `{:ok true :basis 3}`: the command is carried out.
pub fn write_done(line: &mut Vec<u8>, basis: u32) -> Result<(), Memory>
    ensures { OnOk result (IsLineOf (done_reply basis) line.new.items) }
{
    begin(line, b"{:ok true :basis ")?;
    append_count(line, u64::from(basis))?;
    append(line, b"}\n")
}

/// `{:basis 3 :datoms [..]}`: the datoms of a range, their attributes named by the schema.
pub fn write_datoms(
    line: &mut Vec<u8>,
    basis: u32,
    schema: &Schema,
    datoms: &[&Datom],
) -> Result<(), Memory>
    requires { IsTrue (have_texts (map (λ d. d.now) datoms.now)) }
    ensures { OnOk result (IsLineOf
        (datoms_reply basis schema.now (map (λ d. d.now) datoms.now)) line.new.items) }
{
    begin(line, b"{:basis ")?;
    append_count(line, u64::from(basis))?;
    append(line, b" :datoms [")?;
    append_lent(line, schema, datoms)?;
    append(line, b"]}\n")
}

/// `{:basis 3 :txs [{:t 1 :data [..]} ..]}`: the transactions that these entries record.
pub fn write_transactions(
    line: &mut Vec<u8>,
    basis: u32,
    schema: &Schema,
    entries: &[&Entry],
) -> Result<(), Memory>
    requires { IsTrue (entries_have_texts (map (λ entry. entry.now) entries.now)) }
    ensures { OnOk result (IsLineOf
        (transactions_reply basis schema.now (map (λ entry. entry.now) entries.now))
        line.new.items) }
{
    begin(line, b"{:basis ")?;
    append_count(line, u64::from(basis))?;
    append(line, b" :txs [")?;
    append_transactions(line, schema, entries)?;
    append(line, b"]}\n")
}

/// `{:basis 3 :pull tree}`
pub fn write_pull(line: &mut Vec<u8>, basis: u32, tree: &Edn) -> Result<(), Memory>
    ensures { OnOk result (IsLineOf (pull_reply basis (form_of tree.now)) line.new.items) }
{
    begin(line, b"{:basis ")?;
    append_count(line, u64::from(basis))?;
    append(line, b" :pull ")?;
    print(tree, line)?;
    append(line, b"}\n")
}

/// `{:basis 1 :with [{:t 2 :tempids {}} ..] :reply {:basis 2 ..}}`: the reports of transactions that were tried, and what the line of
/// a look behind them says.
pub fn write_with(
    line: &mut Vec<u8>,
    basis: u32,
    reports: &[Tried],
    shown: &[u8],
) -> Result<(), Memory>
    ensures { (reply : Form) → IsLineOf reply shown.now → OnOk result
        (IsLineOf (with_reply basis (map report_of reports.now) reply) line.new.items) }
{
    begin(line, b"{:basis ")?;
    append_count(line, u64::from(basis))?;
    append(line, b" :with [")?;
    append_reports(line, reports)?;
    append(line, b"] :reply ")?;
    // Without its line feed.
    append(line, &shown[..shown.len().saturating_sub(1)])?;
    append(line, b"}\n")
}

/// `{:basis 3 :tuples [[[1 nil] 17592186044420] ..]}`: the tuples of a composite, each with its entity.
pub fn write_tuples(line: &mut Vec<u8>, basis: u32, rows: &[LentRow<'_>]) -> Result<(), Memory>
    requires { IsTrue (rows_have_texts (map model_row rows.now)) }
    ensures { OnOk result
        (IsLineOf (tuples_reply basis (map model_row rows.now)) line.new.items) }
{
    begin(line, b"{:basis ")?;
    append_count(line, u64::from(basis))?;
    append(line, b" :tuples [")?;
    append_rows(line, rows)?;
    append(line, b"]}\n")
}

/// `{:refused :read/bad-point :at 1 :basis 3}`: the keyword, without its colon, says why, and `at` is the place in the command.
pub fn write_refusal(line: &mut Vec<u8>, keyword: &str, at: usize, basis: u32) -> Result<(), Memory>
    ensures { OnOk result (IsLineOf (refusal_reply keyword.now at basis) line.new.items) }
{
    begin(line, b"{:refused :")?;
    append(line, keyword.as_bytes())?;
    append_place(line, at as u64, basis)
}

/// `{:fault :log :at 4 :basis 3}`: the log fails at t `at`.
pub fn write_fault(line: &mut Vec<u8>, fault: LogFault, at: u32, basis: u32) -> Result<(), Memory>
    ensures { OnOk result (IsLineOf (fault_reply (word_of fault) at basis) line.new.items) }
{
    begin(line, b"{:fault :")?;
    append(line, fault.word().as_bytes())?;
    append_place(line, u64::from(at), basis)
}

/// Where something is, and on which basis: the end of a line.
fn append_place(line: &mut Vec<u8>, at: u64, basis: u32) -> Result<(), Memory>
    ensures { OnOk result (line.new.items ≡ line.old.items ++ place_text at basis) }
{
    append(line, b" :at ")?;
    append_count(line, at)?;
    append(line, b" :basis ")?;
    append_count(line, u64::from(basis))?;
    append(line, b"}\n")
}
