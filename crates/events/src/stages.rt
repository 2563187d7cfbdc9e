// An event in its stages.
ghost use Rattle.std.specs.Prelude.{◌≡◌, ◌+◌, ◌≤◌, length};
ghost use Rattle.base.specs.Answer.{accepted};
ghost use Rattle.lookup.specs.Lookup.{named_slots};
ghost use Rattle.events.specs.Answers.{event_of, command_of, result_of};
ghost use Rattle.events.specs.Events.{event_result, command_result};

use crate::command::{Command, read_command};
use crate::decision::decide;
use crate::event::Event;
use crate::outcome::{Outcome, refused};
use crate::update::apply_update;
use base::{Refusal, SLOT_ENTRIES};
use segments::Table;

// The third stage and those after it, on a table that is sound.
fn apply_command(
    t: &Table,
    named: [bool; SLOT_ENTRIES],
    store: &mut [u8],
    o: Command,
    bytes: &[u8],
) -> Outcome
    requires { (named ≡ named_slots t.now) × (o.body.start + o.body.len ≤ length bytes.now) }
    ensures { result_of result store.new
        ≡ command_result (accepted (command_of o bytes.now)) t.now store.old }
{
    let start = o.body.start;
    let end = start + o.body.len;
    let s = match decide(t, named, store, o.action, o.span, &bytes[start..end]) {
        Ok(s) => s,
        Err(e) => return refused(*t, e),
    };
    apply_update(t, named, store, s, o.span, &bytes[start..end])
}

// A grant's bytes are in `bytes`; those of another event are not looked at.
pub fn apply(t: Table, store: &mut [u8], e: Event, bytes: &[u8]) -> Outcome
    ensures { result_of result store.new
        ≡ event_result (event_of e bytes.now) t store.old }
{
    let j = soundness::validate(t, store);
    if !j.sound {
        return refused(t, Refusal::Unsound);
    }
    let o = match read_command(e, bytes) {
        Ok(o) => o,
        Err(fault) => return refused(t, Refusal::from(fault)),
    };
    let named = j.named;
    apply_command(&t, named, store, o, bytes)
}
