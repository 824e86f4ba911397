// The end of a drain: its answer, and the block without it.
ghost use Rattle.std.specs.Prelude.{◌≡◌, ℕ, ◌+◌, ◌≤◌, length};
ghost use Rattle.laws.specs.Stores.{Wrote};
ghost use Rattle.model.specs.Device.{Stream, occupied};
ghost use Rattle.model.specs.Answers.{bytes_of};
ghost use Rattle.model.specs.Commands.{drain_ended, without_ended, drain_answers};
ghost use Rattle.table.specs.Blocks.{place_words};
ghost use Rattle.stream.specs.Replied.{BlockOf};

use protocol::AnswerType;

// Answers the drain that is pending, if one is, where the step ends it.
pub fn ended_answer(block: &[u32], ends: bool, at: usize, stream: u32, room: &mut [u8]) -> usize
    requires { (length block.now ≡ 512) × (at + 16 ≤ length room.old) }
    ensures bound { result ≤ at + 16 }
    ensures written { (n : ℕ) (b : Stream) → BlockOf n block.now b → Wrote room.old room.new at result (bytes_of (drain_answers stream (drain_ended ends b))) }
{
    if !ends {
        return at;
    }
    let Some(ticket) = table::pending_drain(block) else {
        return at;
    };
    answer::put_typed(room, at, ticket, AnswerType::Success, stream)
}

// Drops the pending drain from the block, where the step ends it.
pub fn end_drain(block: &mut [u32], ends: bool)
    requires { length block.old ≡ 512 }
    ensures { (n : ℕ) (b : Stream) → block.old ≡ place_words (occupied n b) → block.new ≡ place_words (occupied n (without_ended ends b)) }
{
    if ends {
        table::set_drain(block, None);
    }
}
