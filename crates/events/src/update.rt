// The fourth stage of an event, the edit, and the fifth, the store, which is written after the last test has passed.
ghost use Rattle.std.specs.Prelude.{◌≡◌};
ghost use Rattle.segments.specs.Segments.{is_named};
ghost use Rattle.lookup.specs.Lookup.{named_slots};
ghost use Rattle.slots.specs.Slots.{is_set};
ghost use Rattle.events.specs.Answers.{result_of};
ghost use Rattle.events.specs.Events.{update_result, change_of, store_after};

use crate::decision::Update;
use crate::outcome::{Outcome, accepted, refused};
use base::{Refusal, SLOT_ENTRIES};
use segments::{READ_LIST, RW_LIST, Span, Table};
use table::Change;

fn change_of(s: Update) -> Change
    ensures { result ≡ change_of s }
{
    match s {
        Update::GrantKnown(i) => Change::Grant(i),
        Update::GrantNew(i) => Change::Grant(i),
        Update::Clear => Change::Clear,
        Update::Recall => Change::Recall,
    }
}

// `was` says which slots the table before the edit names.
fn update_store(s: Update, was: [bool; SLOT_ENTRIES], after: &Table, store: &mut [u8], body: &[u8])
    ensures { store.new
        ≡ store_after s body.now (is_set was) (is_named after.now)
        store.old }
{
    match s {
        Update::GrantKnown(_) => {}
        Update::GrantNew(i) => store::lay_body(store, i, body),
        Update::Clear => slots::clear_unnamed(was, lookup::named_slots(*after), store),
        Update::Recall => {}
    }
}

pub(crate) fn apply_update(
    t: &Table,
    named: [bool; SLOT_ENTRIES],
    store: &mut [u8],
    s: Update,
    span: Span,
    body: &[u8],
) -> Outcome
    requires { named ≡ named_slots t.now }
    ensures { result_of result store.new
        ≡ update_result s body.now span.iomode span.first span.last t.now store.old }
{
    let c = change_of(s);
    let Some(read) = table::edit_list(&t.read, READ_LIST, c, span) else {
        return refused(*t, Refusal::TooManySegments);
    };
    let Some(rw) = table::edit_list(&t.rw, RW_LIST, c, span) else {
        return refused(*t, Refusal::TooManySegments);
    };
    let u = Table { read, rw };
    update_store(s, named, &u, store, body);
    accepted(u)
}
