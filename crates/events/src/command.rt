// The second stage of an event: its own bytes and numbers. "5 before 3".
ghost use Rattle.std.specs.Prelude.{◌≡◌, List, [], ℕ, length};
ghost use Rattle.model.specs.Model.{Grant, read_command, range_command};
ghost use Rattle.events.specs.Answers.{BodyIn, answer_of_command, action_of, event_of};

use crate::event::{Event, Numbers};
use base::{Fault, Iomode};
use segments::Span;
use xdr::Part;

#[derive(Clone, Copy)]
pub(crate) enum Action {
    Grant,
    Return,
    Recall,
    Revoke,
}

// The span's first byte and len are the offset and the length as the event gives them; of a revoke, which gives none,
// 0 and TO_THE_END. `body` is where a grant's body is in its bytes; of any other event start and
// length are 0.
#[derive(Clone, Copy)]
pub(crate) struct Command {
    pub action: Action,
    pub span: Span,
    pub len: u64,
    pub body: Part,
}

const NO_BYTES: Part = Part { start: 0, len: 0 };

fn grant_command(bytes: &[u8]) -> Result<Command, Fault>
    ensures { (answer_of_command result bytes.now ≡ read_command (Grant bytes.now))
        × BodyIn result (length bytes.now) }
{
    let (l, _) = layout4::read_layout4(bytes).answer?;
    let span = Span {
        iomode: l.iomode,
        first: l.offset,
        last: l.last,
    };
    let body = l.body;
    Ok(Command {
        action: Action::Grant,
        span,
        len: l.length,
        body,
    })
}

// Of an action that is no grant.
#[tactic(auto, unfolding(model::specs::Model::range_command, base::specs::Answer::given))]
fn range_command(action: Action, n: Numbers) -> Result<Command, Fault>
    ensures { (bytes : List ℕ)
        → (answer_of_command result bytes ≡ range_command (action_of action []) n.offset n.len n.iomode)
        × BodyIn result (length bytes) }
{
    let last = base::range_last(n.offset, n.len)?;
    let iomode = Iomode::try_from(n.iomode)?;
    let span = Span {
        iomode,
        first: n.offset,
        last,
    };
    Ok(Command {
        action,
        span,
        len: n.len,
        body: NO_BYTES,
    })
}

pub(crate) fn read_command(e: Event, bytes: &[u8]) -> Result<Command, Fault>
    ensures { (answer_of_command result bytes.now ≡ read_command (event_of e bytes.now))
        × BodyIn result (length bytes.now) }
{
    match e {
        Event::Grant => grant_command(bytes),
        Event::Return(n) => range_command(Action::Return, n),
        Event::Recall(n) => range_command(Action::Recall, n),
        Event::Revoke => {
            let span = Span {
                iomode: Iomode::Any,
                first: 0,
                last: base::LAST_BYTE,
            };
            Ok(Command {
                action: Action::Revoke,
                span,
                len: base::TO_THE_END,
                body: NO_BYTES,
            })
        }
    }
}
