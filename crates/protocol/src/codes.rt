// The types of answers and the codes of errors, by which an answer begins.
ghost use Rattle.std.specs.Prelude.{◌≡◌};
ghost use Rattle.protocol.specs.Codes.{answer_number};

// The error that a command is answered with.
#[derive(Clone, Copy, Debug, PartialEq, Eq)]
pub enum ErrorCode {
    InvalidOperation = 0x0300,
    OutOfMemory = 0x0301,
    InvalidStream = 0x0302,
    InvalidResource = 0x0303,
    InvalidParameter = 0x0304,
    UnsupportedControl = 0x0305,
}

// The type of an answer: plain success, which a drain's answer has too, a buffer's answer, the answer to a get, an error.
#[derive(Clone, Copy, Debug, PartialEq, Eq)]
pub enum AnswerType {
    Success,
    BufferDone,
    Parameters,
    Error(ErrorCode),
}

impl From<AnswerType> for u32 {
    ghost from_gives = { λ a n. n ≡ answer_number a };

    fn from(kind: AnswerType) -> u32 {
        match kind {
            AnswerType::Success => 0x0200,
            AnswerType::BufferDone => 0x0202,
            AnswerType::Parameters => 0x0203,
            AnswerType::Error(error) => error as u32,
        }
    }
}
