// The sound device, output only: one control message of the guest to its PCM stream, safe on any bytes and numbers. The state of the stream is
// a number that the host keeps. The whole outcome is one equation to the model: `pcm_control` of crates/pcm/specs/Control.
#![tactic(auto)]

mod lifecycle;
mod message;

ghost use Rattle.std.specs.Prelude.{◌≡◌, ◌≤◌, length};
ghost use Rattle.laws.specs.Stores.{Wrote};
ghost use Rattle.pcm.specs.Numbers.{control_room};
ghost use Rattle.pcm.specs.Control.{on_control, control_answer, pcm_control, status_of};
ghost use Rattle.sound.specs.Meaning.{config_of, pcm_config_of, state_number, pcm_reply_of, outcome_of, as_pcm_effect};

use lifecycle::{PcmRequest, PcmState};
use message::{StatusError, StreamConfig, asks_map, check_format, request_in};

// The status of a message that is taken.
const STATUS_OK: u32 = 0x8000;

// The bytes of a status, and of the answer room that a message must be lent.
const STATUS_BYTES: usize = 4;

const CONTROL_ROOM: usize = 264;

// Why a call is refused, with its number: a number that is no state, and a room that is too short.
#[derive(Clone, Copy, Debug, PartialEq, Eq)]
pub enum ControlRefusal {
    InvalidState = 2,
    ShortRoom = 3,
}

// The result of a message: the number of its refusal, or 0, the state of the stream, and the bytes that were written. It crosses to the
// host as it is.
#[repr(C)]
#[derive(Clone, Copy, Debug, PartialEq, Eq)]
pub struct ControlOutcome {
    pub refusal: u32,
    pub state: u32,
    pub written: u32,
}

// A control message in a state, with the configured numbers of the output stream: its status is written to the room.
#[unsafe(no_mangle)]
pub extern "C" fn virtio_snd_control(
    state: u32,
    channels_min: u8,
    channels_max: u8,
    formats: u16,
    rates: u16,
    message: &[u8],
    answer: &mut [u8],
) -> ControlOutcome
    ensures { as_pcm_effect result answer.new ≡ pcm_control (config_of channels_min channels_max formats rates) state message.now answer.old }
{
    let config = StreamConfig {
        channels_min,
        channels_max,
        formats,
        rates,
    };
    // A refusal writes nothing, and the state comes back as it came.
    pcm_control(state, config, message, answer).unwrap_or_else(|refusal| ControlOutcome {
        refusal: refusal as u32,
        state,
        written: 0,
    })
}

// The same, or why it is refused.
#[tactic(auto, unfolding(pcm::specs::Control::pcm_control, pcm::specs::Control::control_refusal))]
fn pcm_control(
    state: u32,
    config: StreamConfig,
    message: &[u8],
    answer: &mut [u8],
) -> Result<ControlOutcome, ControlRefusal>
    ensures { as_pcm_effect (outcome_of state result) answer.new ≡ pcm_control (pcm_config_of config) state message.now answer.old }
{
    if answer.len() < CONTROL_ROOM {
        return Err(ControlRefusal::ShortRoom);
    }
    let stream = PcmState::try_from(state)?;
    let reply = control_reply(stream, config, message);
    let written = put_status(answer, message, status_of(reply));
    Ok(ControlOutcome {
        refusal: 0,
        state: u32::from(reply.unwrap_or(stream)),
        written: written as u32,
    })
}

// What a message comes to, by its tests in order: the state that it leads to, or why it fails.
#[tactic(auto, using(crate::proofs::Laws::header_fails, crate::proofs::Laws::out_of_turn, crate::proofs::Laws::plain_turn, crate::proofs::Laws::format_turn))]
fn control_reply(
    stream: PcmState,
    config: StreamConfig,
    message: &[u8],
) -> Result<PcmState, StatusError>
    ensures { pcm_reply_of result ≡ on_control (pcm_config_of config) (state_number stream) message.now }
{
    let request = request_in(message)?;
    let next = stream.after(request).ok_or(StatusError::BadMessage)?;
    if request == PcmRequest::SetFormat {
        check_format(config, message)?;
    }
    Ok(next)
}

// The status of a reply.
fn status_of(reply: Result<PcmState, StatusError>) -> u32
    ensures { result ≡ status_of (pcm_reply_of reply) }
{
    match reply {
        Ok(_) => STATUS_OK,
        Err(error) => error as u32,
    }
}

// Writes the status and, where the channel map was asked for, that it has no positions; returns the bytes written.
fn put_status(answer: &mut [u8], message: &[u8], status: u32) -> usize
    requires { control_room ≤ length answer.old }
    ensures wrote { Wrote answer.old answer.new 0 result (control_answer message.now status) }
    ensures few { result ≤ control_room }
{
    field::put(answer, 0, status);
    if !asks_map(message) {
        return STATUS_BYTES;
    }
    answer[STATUS_BYTES..CONTROL_ROOM].fill(0);
    CONTROL_ROOM
}
