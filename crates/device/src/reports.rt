// Reports to a device: the block of the live stream that the report names.
ghost use Rattle.std.specs.Prelude.{◌≡◌, ◌≤◌, length};
ghost use Rattle.model.specs.Numbers.{table_words};
ghost use Rattle.model.specs.Device.{Device};
ghost use Rattle.model.specs.Steps.{finish, drained};
ghost use Rattle.protocol.specs.Refusals.{refusal_of, written_of};
ghost use Rattle.device.specs.Served.{Encodes, Served};

use crate::places::{live_place, settle};
use protocol::{ALL_FLAGS, FinishReport, Refusal};
use table::PLACE_WORDS;

// A finish report: the flags, then the stream.
pub fn finish(t: &mut [u32], report: FinishReport, room: &mut [u8]) -> Result<u32, Refusal>
    requires { (length t.old ≡ table_words) × (1056 ≤ length room.old) }
    ensures { (d : Device) → Encodes t.old d → Served d report.stream (finish report.stream report.queue report.resource report.flags report.timestamp) t.new room.old room.new (refusal_of result) (written_of result) }
{
    if ALL_FLAGS < report.flags {
        return Err(Refusal::BadFlags);
    }
    let Some(k) = live_place(t, report.stream) else {
        return Err(Refusal::UnexpectedReport);
    };
    let at = PLACE_WORDS * k;
    let outcome = completion::finish(&mut t[at..at + PLACE_WORDS], report, room);
    settle(t, k);
    outcome
}

// A drained report.
pub fn drained(t: &mut [u32], stream: u32, room: &mut [u8]) -> Result<u32, Refusal>
    requires { (length t.old ≡ table_words) × (1056 ≤ length room.old) }
    ensures { (d : Device) → Encodes t.old d → Served d stream (drained stream) t.new room.old room.new (refusal_of result) (written_of result) }
{
    let Some(k) = live_place(t, stream) else {
        return Err(Refusal::UnexpectedReport);
    };
    let at = PLACE_WORDS * k;
    let outcome = completion::drained(&mut t[at..at + PLACE_WORDS], stream, room);
    settle(t, k);
    outcome
}
