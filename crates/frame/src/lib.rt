// Checks of a command's frame: its type and length, and the fields of its payload, which is read as the part of the frame from offset 8 and never copied.
#![tactic(auto)]

ghost use Rattle.std.specs.Prelude.{◌≡◌, ◌+◌, ◌*◌, ◌/◌, ◌≤◌, not, length, take};
ghost use Rattle.laws.specs.Lists.{total};
ghost use Rattle.tag.specs.Tag.{good_tag, tag_in};
ghost use Rattle.model.specs.Frames.{command_type, stream_id, coded_format, queue_type, resource_id, num_entries, timestamp_sent, frame_width, frame_height, frame_rate};
ghost use Rattle.model.specs.Commands.{bad_entry};
ghost use Rattle.frame.specs.Frame.{good_creation, good_entry, good_entries, good_resource, good_sizes, good_set};

use protocol::{HEADER, MOST_PLANES, coded_good, extent_good};

mod commands;

pub use commands::{Command, LiveCommand, QueueCommand, check};

// Offsets in the payload, by the draft's structs. stream_create:
const IN_MEM_TYPE: usize = 0;

const OUT_MEM_TYPE: usize = 4;

const CODED_FORMAT: usize = 8;

// resource_create, resource_queue, resource_destroy_all, resource_queue_clear, get_params and set_params; the resource is of the first two:
const QUEUE_TYPE: usize = 0;

const RESOURCE_ID: usize = 4;

// resource_create:
const PLANES_LAYOUT: usize = 8;

const NUM_PLANES: usize = 12;

const NUM_ENTRIES: usize = 48;

// resource_queue:
const TIMESTAMP: usize = 8;

const NUM_DATA_SIZES: usize = 16;

// set_params:
const FORMAT_SENT: usize = 4;

const FRAME_WIDTH: usize = 8;

const FRAME_HEIGHT: usize = 12;

const FRAME_RATE: usize = 40;

// Whether the frame of a create has memory types of 0, a coded format and a good tag.
#[tactic(auto, unfolding(crate::specs::Frame::good_creation))]
pub fn creation_good(frame: &[u8]) -> bool
    requires { 88 ≤ length frame.now }
    ensures { result ≡ good_creation frame.now }
{
    field::payload_u32(frame, IN_MEM_TYPE) == 0
        && field::payload_u32(frame, OUT_MEM_TYPE) == 0
        && coded_good(coded_format(frame))
        && tag_good(frame)
}

// Whether the frame of a resource create, 88 bytes and its entries, is good behind its queue type.
#[tactic(auto, using(std::proofs::lemmas::Bool::Decides::nat_tests), unfolding(crate::specs::Frame::good_resource, laws::specs::Tests::within))]
pub fn resource_good(frame: &[u8]) -> bool
    requires { 88 ≤ length frame.now }
    ensures { result ≡ good_resource frame.now }
{
    let planes = field::payload_u32(frame, NUM_PLANES);
    (1..=2).contains(&field::payload_u32(frame, PLANES_LAYOUT))
        && (1..=MOST_PLANES).contains(&planes)
        && entries_good(frame, entry_sum(frame, planes as usize))
}

// Whether the frame of a queue command, 64 bytes, has at most 8 sizes.
pub fn sizes_good(frame: &[u8]) -> bool
    requires { 64 ≤ length frame.now }
    ensures { result ≡ good_sizes frame.now }
{
    field::payload_u32(frame, NUM_DATA_SIZES) <= MOST_PLANES
}

// Whether the frame of a set, 120 bytes, has the queue's format and a good width and height.
#[tactic(auto, unfolding(crate::specs::Frame::good_set))]
pub fn set_good(frame: &[u8], format: u32) -> bool
    requires { 120 ≤ length frame.now }
    ensures { result ≡ good_set format frame.now }
{
    field::payload_u32(frame, FORMAT_SENT) == format
        && extent_good(frame_width(frame))
        && extent_good(frame_height(frame))
}

// Kept as functions on the bytes: views would be five structs, one for each least length, and what is promised of a frame speaks of its bytes.

// The type of a command.
pub fn kind(frame: &[u8]) -> u32
    requires { 8 ≤ length frame.now }
    ensures { result ≡ command_type frame.now }
{
    field::read::<u32>(frame, 0)
}

// The stream number of a command.
pub fn stream(frame: &[u8]) -> u32
    requires { 8 ≤ length frame.now }
    ensures { result ≡ stream_id frame.now }
{
    field::read::<u32>(frame, 4)
}

// The coded format of a create.
pub fn coded_format(frame: &[u8]) -> u32
    requires { 88 ≤ length frame.now }
    ensures { result ≡ coded_format frame.now }
{
    field::payload_u32(frame, CODED_FORMAT)
}

// The queue type of a command that has one.
pub fn queue_type(frame: &[u8]) -> u32
    requires { 16 ≤ length frame.now }
    ensures { result ≡ queue_type frame.now }
{
    field::payload_u32(frame, QUEUE_TYPE)
}

// The resource number of a resource create or a queue command.
pub fn resource(frame: &[u8]) -> u32
    requires { 64 ≤ length frame.now }
    ensures { result ≡ resource_id frame.now }
{
    field::payload_u32(frame, RESOURCE_ID)
}

// The timestamp of a queue command.
pub fn timestamp(frame: &[u8]) -> u64
    requires { 64 ≤ length frame.now }
    ensures { result ≡ timestamp_sent frame.now }
{
    field::read::<u64>(&frame[HEADER..], TIMESTAMP)
}

// The width of a set.
pub fn frame_width(frame: &[u8]) -> u32
    requires { 120 ≤ length frame.now }
    ensures { result ≡ frame_width frame.now }
{
    field::payload_u32(frame, FRAME_WIDTH)
}

// The height of a set.
pub fn frame_height(frame: &[u8]) -> u32
    requires { 120 ≤ length frame.now }
    ensures { result ≡ frame_height frame.now }
{
    field::payload_u32(frame, FRAME_HEIGHT)
}

// The rate of a set.
pub fn frame_rate(frame: &[u8]) -> u32
    requires { 120 ≤ length frame.now }
    ensures { result ≡ frame_rate frame.now }
{
    field::payload_u32(frame, FRAME_RATE)
}

// Whether the tag of a create is good.
fn tag_good(frame: &[u8]) -> bool
    requires { 88 ≤ length frame.now }
    ensures { result ≡ good_tag (tag_in frame.now) }
{
    tag::tag_of(&frame[24..88]).is_some()
}

// The true sum of the first entry counts.
#[tactic(auto, using(crate::proofs::Laws::sum_more))]
fn entry_sum(frame: &[u8], planes: usize) -> u64
    requires { (88 ≤ length frame.now) × (planes ≤ 8) }
    ensures { result ≡ total (take planes (num_entries frame.now)) }
{
    let mut sum = 0;
    for i in 0..planes {
        sum += u64::from(field::payload_u32(frame, NUM_ENTRIES + 4 * i));
    }
    sum
}

// Whether there are 1 to 256 entries, the frame has the length that goes with them, and each is good.
#[tactic(auto, using(std::proofs::lemmas::Bool::Decides::nat_tests), unfolding(crate::specs::Frame::good_entries, laws::specs::Tests::within))]
fn entries_good(frame: &[u8], sum: u64) -> bool
    requires { 88 ≤ length frame.now }
    ensures { result ≡ good_entries frame.now sum }
{
    (1..=256).contains(&sum) && frame.len() == 88 + 16 * sum as usize && all_good(&frame[88..])
}

// Whether each entry is good.
fn all_good(entries: &[u8]) -> bool
    ensures { result ≡ not (bad_entry (length entries.now / 16) entries.now) }
{
    entries.chunks_exact(16).all(entry_good)
}

// Whether the entry in the first 16 bytes is good.
#[tactic(auto, unfolding(crate::specs::Frame::good_entry))]
fn entry_good(entry: &[u8]) -> bool
    requires { 16 ≤ length entry.now }
    ensures { result ≡ good_entry entry.now }
{
    let address = field::read::<u64>(entry, 0);
    let len = u64::from(field::read::<u32>(entry, 8));
    len != 0 && len - 1 <= u64::MAX - address
}
