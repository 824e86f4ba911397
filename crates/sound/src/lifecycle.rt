// The life of a PCM stream as a machine.
ghost use Rattle.std.specs.Prelude.{◌≡◌, option_map};
ghost use Rattle.pcm.specs.Lifecycle.{next_state};
ghost use Rattle.sound.specs.Meaning.{state_number, request_code, IsStateOf, IsRequestOf};

use crate::ControlRefusal;
use crate::message::StatusError;

// The states, numbered from 0.
#[derive(Clone, Copy, Debug, PartialEq, Eq)]
pub enum PcmState {
    Fresh,
    Set,
    Prepared,
    Running,
    Paused,
    Stopped,
}

// The requests, whose codes go from 0.
#[derive(Clone, Copy, Debug, PartialEq, Eq)]
pub enum PcmRequest {
    ChannelMap,
    SetFormat,
    Prepare,
    Start,
    Stop,
    Pause,
    Unpause,
}

impl TryFrom<u32> for PcmState {
    type Error = ControlRefusal;

    ghost try_from_gives = { IsStateOf };

    fn try_from(number: u32) -> Result<Self, ControlRefusal> {
        match number {
            0 => Ok(PcmState::Fresh),
            1 => Ok(PcmState::Set),
            2 => Ok(PcmState::Prepared),
            3 => Ok(PcmState::Running),
            4 => Ok(PcmState::Paused),
            5 => Ok(PcmState::Stopped),
            _ => Err(ControlRefusal::InvalidState),
        }
    }
}

impl From<PcmState> for u32 {
    ghost from_gives = { λ s n. n ≡ state_number s };

    fn from(state: PcmState) -> u32 {
        state as u32
    }
}

impl TryFrom<u32> for PcmRequest {
    type Error = StatusError;

    ghost try_from_gives = { IsRequestOf };

    fn try_from(code: u32) -> Result<Self, StatusError> {
        match code {
            0 => Ok(PcmRequest::ChannelMap),
            1 => Ok(PcmRequest::SetFormat),
            2 => Ok(PcmRequest::Prepare),
            3 => Ok(PcmRequest::Start),
            4 => Ok(PcmRequest::Stop),
            5 => Ok(PcmRequest::Pause),
            6 => Ok(PcmRequest::Unpause),
            _ => Err(StatusError::BadMessage),
        }
    }
}

impl PcmState {
    // The state that a request leads to; none where it is out of order.
    #[tactic(auto, unfolding(pcm::specs::Lifecycle::next_state))]
    pub fn after(self, request: PcmRequest) -> Option<PcmState>
        ensures { option_map state_number result ≡ next_state (state_number self) (request_code request) }
    {
        match (self, request) {
            (PcmState::Fresh, PcmRequest::SetFormat) => Some(PcmState::Set),
            (PcmState::Set, PcmRequest::SetFormat) => Some(PcmState::Set),
            (PcmState::Set, PcmRequest::Prepare) => Some(PcmState::Prepared),
            (PcmState::Prepared, PcmRequest::SetFormat) => Some(PcmState::Set),
            (PcmState::Prepared, PcmRequest::Start) => Some(PcmState::Running),
            (PcmState::Running, PcmRequest::Stop) => Some(PcmState::Stopped),
            (PcmState::Running, PcmRequest::Pause) => Some(PcmState::Paused),
            (PcmState::Paused, PcmRequest::Stop) => Some(PcmState::Stopped),
            (PcmState::Paused, PcmRequest::Unpause) => Some(PcmState::Running),
            (PcmState::Stopped, PcmRequest::SetFormat) => Some(PcmState::Set),
            (PcmState::Stopped, PcmRequest::Prepare) => Some(PcmState::Prepared),
            _ => None,
        }
    }
}
