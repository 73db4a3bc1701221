// The answer to a call line as bytes: docs/ORACLE.md, "Answer lines". The line of an answer has at most 27,257 bytes, and where so many are lent
// nothing of it is left out (`answer_length`, `answer_fits`, proofs/Lengths.antt). Whoever calls lends 32,768. No `Display`, as `texts` says.
#![tactic(auto)]

ghost use Rattle.std.specs.Prelude.{◌≡◌};
ghost use Rattle.texts.specs.Text.{put};
ghost use Rattle.lines_written.specs.answers.Answer.{answer_text};

use consensus::Answer;
use texts::Output;

// The line of an answer, with its LF.
#[tactic(auto, using(texts::proofs::Putting::put_append), unfolding(crate::specs::answers::Answer::answer_text, texts::specs::Text::put))]
pub fn put_answer_text(out: &mut Output, answer: &Answer)
    ensures { out.new ≡ put (answer_text answer.now) out.old }
{
    let state = &answer.shard.state;
    crate::replies::put_reply_text(out, answer.reply, &state.table.served);
    crate::shards::put_shard(out, &state.rounds, &state.table.reads, answer.shard.made);
    out.put_byte(b'\n');
}
