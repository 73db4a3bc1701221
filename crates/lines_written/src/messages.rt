// The messages of a reply as bytes: docs/ORACLE.md, "Answer lines", 2. No `Display`, as `texts` says.
#![tactic(auto)]

ghost use Rattle.std.specs.Prelude.{◌≡◌};
ghost use Rattle.texts.specs.Text.{put};
ghost use Rattle.lines_written.specs.messages.Messages.{message_text, destination_text, optional_message_text, messages_text};

use message::ConsensusMsg;
use steps::{Destination, Outgoing, SentMessages};
use texts::Output;

#[tactic(auto, using(texts::proofs::Putting::put_then), unfolding(crate::specs::messages::Messages::message_text))]
fn put_message_text(out: &mut Output, msg: ConsensusMsg)
    ensures { out.new ≡ put (message_text msg) out.old }
{
    match msg {
        ConsensusMsg::Prepare { slot, round, rv } => {
            out.put_fields(b" prepare", &[slot, round.round_group, round.leader]);
            crate::promises::put_promise(out, rv);
        }
        ConsensusMsg::Accept { slot, round, v } => {
            out.put_fields(b" accept", &[slot, round.round_group, round.leader, v]);
        }
        ConsensusMsg::ForwardRequest { v } => out.put_fields(b" forward", &[v]),
        ConsensusMsg::Commit { slot, v } => out.put_fields(b" commit", &[slot, v]),
        ConsensusMsg::ReadRequest { id } => out.put_fields(b" read_request", &[id.0]),
        ConsensusMsg::ReadResponse {
            id,
            next_readable_slot,
        } => out.put_fields(b" read_response", &[id.0, next_readable_slot]),
    }
}

#[tactic(auto, using(texts::proofs::Putting::put_append), unfolding(crate::specs::messages::Messages::destination_text, texts::specs::Text::put))]
fn put_destination(out: &mut Output, destination: Destination)
    ensures { out.new ≡ put (destination_text destination) out.old }
{
    match destination {
        Destination::One(process) => {
            out.put_field(process);
            out.put_bytes(b" -");
        }
        Destination::All(first) => {
            out.put_bytes(b" all");
            crate::promises::put_optional_value(out, first);
        }
    }
}

#[tactic(auto, using(texts::proofs::Putting::put_append), unfolding(crate::specs::messages::Messages::optional_message_text, crate::specs::messages::Messages::outgoing_text, texts::specs::Text::put))]
fn put_optional_message(out: &mut Output, message: Option<Outgoing>)
    ensures { out.new ≡ put (optional_message_text message) out.old }
{
    if let Some(outgoing) = message {
        out.put_bytes(b" | send");
        put_destination(out, outgoing.destination);
        crate::promises::put_optional_value(out, outgoing.message.last_v);
        put_message_text(out, outgoing.message.msg);
    }
}

#[tactic(auto, using(texts::proofs::Putting::put_append), unfolding(crate::specs::messages::Messages::messages_text, texts::specs::Text::put))]
pub fn put_messages_text(out: &mut Output, messages: SentMessages)
    ensures { out.new ≡ put (messages_text messages) out.old }
{
    put_optional_message(out, messages.first);
    put_optional_message(out, messages.second);
    put_optional_message(out, messages.third);
}
