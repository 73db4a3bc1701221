// Values, rounds and promises as bytes, as they stand in a message and in a shard: docs/ORACLE.md, "Answer lines", 2 and 5. No `Display`, as `texts` says.
#![tactic(auto)]

ghost use Rattle.std.specs.Prelude.{◌≡◌};
ghost use Rattle.texts.specs.Text.{put};
ghost use Rattle.lines_written.specs.promises.Promises.{optional_value_text, optional_round_text, promise_text, held_text};

use message::{PaxosRound, RoundV};
use texts::Output;

#[tactic(auto, unfolding(crate::specs::promises::Promises::optional_value_text))]
pub fn put_optional_value(out: &mut Output, value: Option<u64>)
    ensures { out.new ≡ put (optional_value_text value) out.old }
{
    match value {
        None => out.put_bytes(b" -"),
        Some(v) => out.put_field(v),
    }
}

#[tactic(auto, using(texts::proofs::Putting::put_then), unfolding(crate::specs::promises::Promises::optional_round_text))]
pub fn put_optional_round(out: &mut Output, round: Option<PaxosRound>)
    ensures { out.new ≡ put (optional_round_text round) out.old }
{
    match round {
        None => out.put_bytes(b" -"),
        Some(r) => {
            out.put_field(r.round_group);
            out.put_field(r.leader);
        }
    }
}

#[tactic(auto, using(texts::proofs::Putting::put_append), unfolding(crate::specs::promises::Promises::promise_text, texts::specs::Text::put))]
pub fn put_promise(out: &mut Output, rv: RoundV)
    ensures { out.new ≡ put (promise_text rv) out.old }
{
    match rv {
        RoundV::FastV { proposer, v } => out.put_fields(b" fast", &[proposer, v]),
        RoundV::PaxosV { accept_round, v } => {
            out.put_bytes(b" paxos");
            put_optional_round(out, accept_round);
            out.put_field(v);
        }
    }
}

#[tactic(auto, unfolding(crate::specs::promises::Promises::held_text))]
pub fn put_held(out: &mut Output, held: Option<RoundV>)
    ensures { out.new ≡ put (held_text held) out.old }
{
    match held {
        None => out.put_bytes(b" -"),
        Some(rv) => put_promise(out, rv),
    }
}
