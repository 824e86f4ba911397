// What a step gives back.
ghost use Rattle.std.specs.Prelude.{◌≡◌};
ghost use Rattle.protocol.specs.Refusals.{outcome_of};

// Why a step is refused: the host's first tests, a command without a whole header, reports, and a line of the log that is no frame.
#[derive(Clone, Copy, Debug, PartialEq, Eq)]
pub enum Refusal {
    ShortTable = 1,
    InvalidTable = 2,
    ShortRoom = 3,
    ShortCommand = 4,
    UnexpectedReport = 5,
    BadFlags = 6,
    NoFrame = 7,
}

// The result of a step: the number of its refusal, or 0, and the bytes that it wrote. It crosses to the host as it is.
#[repr(C)]
#[derive(Clone, Copy, Debug, PartialEq, Eq)]
pub struct Outcome {
    pub refusal: u32,
    pub written: u32,
}

// A refusal: nothing is written.
pub fn refused(number: u32) -> Outcome
    ensures { (result.refusal ≡ number) × (result.written ≡ 0) }
{
    Outcome {
        refusal: number,
        written: 0,
    }
}

// A step that went well, or its refusal.
impl From<Result<u32, Refusal>> for Outcome {
    ghost from_gives = { λ r o. o ≡ outcome_of r };

    fn from(step: Result<u32, Refusal>) -> Outcome {
        match step {
            Ok(written) => Outcome {
                refusal: 0,
                written,
            },
            Err(refusal) => refused(refusal as u32),
        }
    }
}
