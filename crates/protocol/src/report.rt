// What the back end reports.

// A buffer is finished: of a stream and a queue the resource, with its flags and its timestamp.
#[derive(Clone, Copy, Debug, PartialEq, Eq)]
pub struct FinishReport {
    pub stream: u32,
    pub queue: u32,
    pub resource: u32,
    pub flags: u32,
    pub timestamp: u64,
}
