// The queue types.
ghost use Rattle.std.specs.Prelude.{◌≡◌};
ghost use Rattle.model.specs.Device.{is_input};
ghost use Rattle.model.specs.Frames.{queue_number, queue_named};
ghost use Rattle.protocol.specs.QueueTypes.{queue_type_of, queue_meant};

// One of a stream's two queues, with its number.
#[derive(Clone, Copy, Debug, PartialEq, Eq)]
pub enum QueueType {
    Input = 0x0100,
    Output = 0x0101,
}

impl QueueType {
    // Whether it is the input queue.
    pub fn is_input(self) -> bool
        ensures { result ≡ is_input (queue_type_of self) }
    {
        self == QueueType::Input
    }
}

// A number that names neither queue.
#[derive(Clone, Copy, Debug, PartialEq, Eq)]
pub struct NoQueue;

impl TryFrom<u32> for QueueType {
    type Error = NoQueue;

    ghost try_from_gives = { λ n r. queue_meant r ≡ queue_named n };

    fn try_from(n: u32) -> Result<Self, NoQueue> {
        match n {
            0x0100 => Ok(QueueType::Input),
            0x0101 => Ok(QueueType::Output),
            _ => Err(NoQueue),
        }
    }
}

impl From<QueueType> for u32 {
    ghost from_gives = { λ q n. n ≡ queue_number (queue_type_of q) };

    fn from(q: QueueType) -> u32 {
        q as u32
    }
}
