// The tests of a message's bytes.
ghost use Rattle.std.specs.Prelude.{◌≡◌, ◌≤◌, length, IfOk};
ghost use Rattle.laws.specs.InOrder.{first_hit};
ghost use Rattle.pcm.specs.Numbers.{set_format_bytes};
ghost use Rattle.pcm.specs.Control.{code_in, request_bytes, has_bit, supported, asks_map};
ghost use Rattle.sound.specs.Meaning.{pcm_config_of, request_code, error_in};
ghost use Rattle.sound.specs.Checks.{header_tests, stream_tests, format_tests};

use crate::lifecycle::PcmRequest;

// The configured numbers of the output stream.
#[derive(Clone, Copy, Debug, PartialEq, Eq)]
pub struct StreamConfig {
    pub channels_min: u8,
    pub channels_max: u8,
    pub formats: u16,
    pub rates: u16,
}

// Why a message fails, with the status that it gets.
#[derive(Clone, Copy, Debug, PartialEq, Eq)]
pub enum StatusError {
    BadMessage = 0x8001,
    NotSupported = 0x8002,
}

// The stream types.
const OUTPUT_STREAM: u32 = 0;

const INPUT_STREAM: u32 = 1;

// The last sample format and the last frame rate.
const LAST_FORMAT: u16 = 7;

const LAST_RATE: u16 = 13;

// Lengths of requests: of a header, and with a format.
const PCM_HEADER: usize = 8;

const SET_FORMAT_BYTES: usize = 16;

// The offsets of the fields.
const CODE_AT: usize = 0;

const STREAM_AT: usize = 4;

const CHANNELS_AT: usize = 8;

const FORMAT_AT: usize = 10;

const RATE_AT: usize = 12;

// The request of a message whose length, code and stream are good.
#[tactic(auto, unfolding(laws::specs::InOrder::first_hit))]
pub fn request_in(message: &[u8]) -> Result<PcmRequest, StatusError>
    ensures fails { error_in result ≡ first_hit (header_tests message.now) }
    ensures code { IfOk result (λ r. request_code r ≡ code_in message.now) }
    ensures long { IfOk result (λ r. length message.now ≡ request_bytes (request_code r)) }
{
    if message.len() < PCM_HEADER {
        return Err(StatusError::BadMessage);
    }
    let request = PcmRequest::try_from(field::read::<u32>(message, CODE_AT))?;
    if request == PcmRequest::ChannelMap {
        return Err(StatusError::NotSupported);
    }
    if message.len() != request_bytes(request) {
        return Err(StatusError::BadMessage);
    }
    check_stream(field::read::<u32>(message, STREAM_AT))?;
    Ok(request)
}

// The stream type: only output is served.
#[tactic(auto, unfolding(laws::specs::InOrder::first_hit))]
fn check_stream(stream: u32) -> Result<(), StatusError>
    ensures { error_in result ≡ first_hit (stream_tests stream) }
{
    match stream {
        OUTPUT_STREAM => Ok(()),
        INPUT_STREAM => Err(StatusError::NotSupported),
        _ => Err(StatusError::BadMessage),
    }
}

// How long a request must be.
fn request_bytes(request: PcmRequest) -> usize
    ensures { result ≡ request_bytes (request_code request) }
{
    match request {
        PcmRequest::SetFormat => SET_FORMAT_BYTES,
        _ => PCM_HEADER,
    }
}

// The channels, the format and the rate in a message: they are the configured ones.
#[tactic(auto, unfolding(laws::specs::InOrder::first_hit, laws::specs::Tests::within))]
pub fn check_format(config: StreamConfig, message: &[u8]) -> Result<(), StatusError>
    requires { set_format_bytes ≤ length message.now }
    ensures { error_in result ≡ first_hit (format_tests (pcm_config_of config) message.now) }
{
    let channels = field::read::<u16>(message, CHANNELS_AT);
    let format = field::read::<u16>(message, FORMAT_AT);
    let rate = field::read::<u16>(message, RATE_AT);
    let taken = u16::from(config.channels_min)..=u16::from(config.channels_max);
    if !taken.contains(&channels) {
        return Err(StatusError::BadMessage);
    }
    if !is_supported(LAST_FORMAT, config.formats, format) {
        return Err(StatusError::NotSupported);
    }
    if !is_supported(LAST_RATE, config.rates, rate) {
        return Err(StatusError::NotSupported);
    }
    Ok(())
}

// Whether a format or a rate is defined, up to the last, and configured.
#[tactic(auto, unfolding(pcm::specs::Control::supported))]
fn is_supported(last: u16, bits: u16, n: u16) -> bool
    ensures { result ≡ supported last bits n }
{
    n <= last && has_bit(bits, n)
}

// Whether a bit map of 16 bits has the bit n.
#[tactic(auto, unfolding(pcm::specs::Control::has_bit))]
fn has_bit(bits: u16, n: u16) -> bool
    ensures { result ≡ has_bit bits n }
{
    n < 16 && (bits >> n) & 1 == 1
}

// Whether a whole header asks for the channel map.
pub fn asks_map(message: &[u8]) -> bool
    ensures { result ≡ asks_map message.now }
{
    message.len() >= PCM_HEADER
        && field::read::<u32>(message, CODE_AT) == PcmRequest::ChannelMap as u32
}
