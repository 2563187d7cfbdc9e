// The third stage of an event: what the rights say. `named` says of each slot whether a segment of the table names it.
ghost use Rattle.std.specs.Prelude.{◌≡◌};
ghost use Rattle.base.specs.Results.{answered};
ghost use Rattle.lookup.specs.Lookup.{named_slots};
ghost use Rattle.model.specs.SlotsShown.{slots_in};
ghost use Rattle.slots.specs.Slots.{slot_choice};
ghost use Rattle.events.specs.Answers.{action_of};
ghost use Rattle.events.specs.Events.{other_body, grant_under, grant_decision, recall_decision, decision};

use crate::command::Action;
use base::{Refusal, SLOT_ENTRIES, SlotNumber};
use lookup::Condition;
use segments::{Span, Table};
use slots::SlotChoice;

// What a command does: a grant under the slot that holds its body, a grant whose body goes into a free slot, bytes
// that become none, and a recall.
#[derive(Clone, Copy)]
pub enum Update {
    GrantKnown(SlotNumber),
    GrantNew(SlotNumber),
    Clear,
    Recall,
}

// What prevents a grant: bytes held under another slot; under any, where the body has none.
fn other_body(choice: SlotChoice) -> Condition
    ensures { result ≡ other_body choice }
{
    match choice {
        SlotChoice::Holding(s) => Condition::HeldElsewhere(s),
        SlotChoice::Free(_) => Condition::Held,
        SlotChoice::NoneLeft => Condition::Held,
    }
}

fn grant_under(choice: SlotChoice) -> Result<Update, Refusal>
    ensures { answered result ≡ grant_under choice }
{
    match choice {
        SlotChoice::Holding(s) => Ok(Update::GrantKnown(s)),
        SlotChoice::Free(s) => Ok(Update::GrantNew(s)),
        SlotChoice::NoneLeft => Err(Refusal::NoFreeSlot),
    }
}

fn decide_grant(
    t: &Table,
    named: [bool; SLOT_ENTRIES],
    store: &[u8],
    span: Span,
    body: &[u8],
) -> Result<Update, Refusal>
    requires { named ≡ named_slots t.now }
    ensures { answered result
        ≡ grant_decision (slot_choice body.now (slots_in t.now store.now))
        span.iomode span.first span.last t.now }
{
    let choice = slots::choose_slot(named, store, body);
    let other = other_body(choice);
    if lookup::meets(*t, span, other) {
        return Err(Refusal::HeldUnderOtherBody);
    }
    if lookup::meets(*t, span, Condition::Recalled) {
        return Err(Refusal::RecalledInRange);
    }
    grant_under(choice)
}

#[tactic(auto, unfolding(crate::specs::Events::recall_decision, base::specs::Answer::pick))]
fn decide_recall(t: &Table, span: Span) -> Result<Update, Refusal>
    ensures { answered result ≡ recall_decision span.iomode span.first span.last t.now }
{
    if !lookup::meets(*t, span, Condition::Held) {
        return Err(Refusal::NothingHeld);
    }
    Ok(Update::Recall)
}

pub(crate) fn decide(
    t: &Table,
    named: [bool; SLOT_ENTRIES],
    store: &[u8],
    action: Action,
    span: Span,
    body: &[u8],
) -> Result<Update, Refusal>
    requires { named ≡ named_slots t.now }
    ensures { answered result
        ≡ decision (action_of action body.now) span.iomode span.first span.last t.now
        store.now }
{
    match action {
        Action::Grant => decide_grant(t, named, store, span, body),
        Action::Return => Ok(Update::Clear),
        Action::Recall => decide_recall(t, span),
        Action::Revoke => Ok(Update::Clear),
    }
}
