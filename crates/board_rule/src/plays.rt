//! What a seat learns by each single step on the table.
ghost use Rattle.std.specs.Prelude.{ℕ, List, [], true, false};
ghost use Rattle.board_rule.specs.declared.view.Code.{Code};
ghost use Rattle.board_rule.specs.declared.view.Marks.{Marks};
ghost use Rattle.board_rule.specs.Views.{AreLawful, codes, unmarked, Fits, giver, newcomer, both, spent};
ghost use Rattle.board_rule.specs.Plays.{draws_ticket, looks, notes_marks, notes_found, commits, leaves, counts, takes_core, puts_core, grabs_own, grabs_mail, lets_own_go, lets_mail_go, takes_mail, puts_mail};

use crate::board::SlotValue;
use crate::named::{Mailed, Named};
use crate::view::{Code, View};
use atomic_table::{Join, Play, Split};
use std::marker::{Brand, PhantomData};

pub(crate) struct DrawTicket;

impl<H, S> Play<SlotValue<H, S>, View<Code>> for DrawTicket {
    ghost then = { draws_ticket };
}

pub(crate) struct Look<H> {
    of: PhantomData<H>,
}

impl<H: Named, S> Play<SlotValue<H, S>, View<Code>> for Look<H> {
    ghost then = { looks (AreLawful H.Entry.row.coded.code H.follows) };
}

/// The marks that a look notes. Its call picks them.
pub trait PickedMarks {
    ghost marks: { Marks };
}

impl PickedMarks for Brand {
    ghost marks = { unmarked };
}

pub(crate) struct NoteMarks<B> {
    of: PhantomData<B>,
}

impl<H, S, B: PickedMarks> Play<SlotValue<H, S>, View<Code>> for NoteMarks<B> {
    ghost then = { notes_marks B.marks };
}

pub(crate) struct NoteFound;

impl<H, S> Play<SlotValue<H, S>, View<Code>> for NoteFound {
    ghost then = { notes_found };
}

/// The history and its authors after a commit. Its call picks them.
pub trait PickedHistory {
    ghost entries: { List Code };

    ghost authors: { List ℕ };
}

impl PickedHistory for Brand {
    ghost entries = { [] };

    ghost authors = { [] };
}

pub(crate) struct StoreCount<B> {
    of: PhantomData<B>,
}

impl<H, S, B: PickedHistory> Play<SlotValue<H, S>, View<Code>> for StoreCount<B> {
    ghost then = { commits B.entries B.authors };
}

pub(crate) struct ServeNext;

impl<H, S> Play<SlotValue<H, S>, View<Code>> for ServeNext {
    ghost then = { leaves };
}

pub(crate) struct LoadCount;

impl<H, S> Play<SlotValue<H, S>, View<Code>> for LoadCount {
    ghost then = { counts };
}

/// What is kept of the value in slot 0 from the opening on, which a step alone cannot name. The call picks it.
pub trait PickedOrigin<H> {
    ghost kept: { H → Type 0 };
}

impl<H> PickedOrigin<H> for Brand {
    ghost kept = { λ h. Unit {0} };
}

pub(crate) struct TakeCore<H, B> {
    of: PhantomData<(H, B)>,
}

impl<H: Named, S, B: PickedOrigin<H>> Play<SlotValue<H, S>, View<Code>> for TakeCore<H, B> {
    ghost then = { takes_core (λ h. Fits (codes H.Entry.row.coded.code (H.entries h)) (H.authors h)
        (H.marks h) (H.sound h × B.kept h)) };
}

pub(crate) struct PutCore;

impl<H, S> Play<SlotValue<H, S>, View<Code>> for PutCore {
    ghost then = { puts_core };
}

pub(crate) struct GrabOwn;

impl<H, S> Play<SlotValue<H, S>, View<Code>> for GrabOwn {
    ghost then = { grabs_own };
}

pub(crate) struct LetOwnGo;

impl<H, S> Play<SlotValue<H, S>, View<Code>> for LetOwnGo {
    ghost then = { lets_own_go false };
}

pub(crate) struct KeepAndLetGo;

impl<H, S> Play<SlotValue<H, S>, View<Code>> for KeepAndLetGo {
    ghost then = { lets_own_go true };
}

pub(crate) struct GrabMail;

impl<H, S> Play<SlotValue<H, S>, View<Code>> for GrabMail {
    ghost then = { grabs_mail };
}

pub(crate) struct LetMailGo;

impl<H, S> Play<SlotValue<H, S>, View<Code>> for LetMailGo {
    ghost then = { lets_mail_go };
}

pub(crate) struct TakeMail<H, S> {
    of: PhantomData<(H, S)>,
}

impl<H: Named, S: Mailed + Named<Entry = H::Entry>> Play<SlotValue<H, S>, View<Code>>
    for TakeMail<H, S> {
    ghost then = { takes_mail (λ s. codes H.Entry.row.coded.code (S.entries s)) };
}

pub(crate) struct PutMail<H, S> {
    of: PhantomData<(H, S)>,
}

impl<H: Named, S: Mailed + Named<Entry = H::Entry>> Play<SlotValue<H, S>, View<Code>>
    for PutMail<H, S> {
    ghost then = { puts_mail (λ s. codes H.Entry.row.coded.code (S.entries s)) };
}

pub(crate) struct SplitSeat;

impl Split<View<Code>> for SplitSeat {
    ghost left = { giver };

    ghost right = { newcomer };
}

pub(crate) struct Reunite;

impl Join<View<Code>> for Reunite {
    ghost both = { both };

    ghost spent = { spent };
}
