// The commands, by the types and the lengths of their frames.
ghost use Rattle.std.specs.Prelude.{◌≡◌, option_map};
ghost use Rattle.model.specs.Frames.{rule_of, wrong_length};
ghost use Rattle.frame.specs.Meant.{verdict, verdict_of, length_rule_of, rule_meant};

use protocol::ErrorCode;

// The commands to a queue of a live stream.
#[derive(Clone, Copy, Debug, PartialEq, Eq)]
pub enum QueueCommand {
    CreateResource,
    QueueResource,
    DestroyAll,
    Clear,
    GetParameters,
    SetParameters,
}

// The commands to a live stream.
#[derive(Clone, Copy, Debug, PartialEq, Eq)]
pub enum LiveCommand {
    Destroy,
    Drain,
    Control,
    ToQueue(QueueCommand),
}

// All commands: a creation, or one to a live stream.
#[derive(Clone, Copy, Debug, PartialEq, Eq)]
pub enum Command {
    Create,
    Live(LiveCommand),
}

// How long the frame of a command must be.
#[derive(Clone, Copy)]
enum LengthRule {
    Exactly(usize),
    AtLeast(usize),
}

// A rule of the table of commands: the length of the frame, and the command.
#[derive(Clone, Copy)]
struct CommandRule {
    length: LengthRule,
    command: Command,
}

// Tests the type of a command and then its length.
pub fn check(kind: u32, len: usize) -> Result<Command, ErrorCode>
    ensures { verdict_of result ≡ verdict (rule_of kind) len }
{
    let rule = rule_of(kind).ok_or(ErrorCode::InvalidOperation)?;
    if rule.length.refuses(len) {
        return Err(ErrorCode::InvalidParameter);
    }
    Ok(rule.command)
}

impl LengthRule {
    // Whether a frame of this length is none of the command's.
    fn refuses(self, len: usize) -> bool
        ensures { result ≡ wrong_length (length_rule_of self) len }
    {
        match self {
            LengthRule::Exactly(n) => len != n,
            LengthRule::AtLeast(n) => len < n,
        }
    }
}

// The rule of a type.
#[tactic(auto, unfolding(model::specs::Frames::rule_of))]
fn rule_of(kind: u32) -> Option<CommandRule>
    ensures { option_map (rule_meant kind) result ≡ rule_of kind }
{
    use LengthRule::{AtLeast, Exactly};
    use LiveCommand::{Control, Destroy, Drain, ToQueue};
    use QueueCommand::{
        Clear, CreateResource, DestroyAll, GetParameters, QueueResource, SetParameters,
    };

    let (length, command) = match kind {
        0x0101 => (Exactly(88), Command::Create),
        0x0102 => (Exactly(8), Command::Live(Destroy)),
        0x0103 => (Exactly(8), Command::Live(Drain)),
        0x0104 => (AtLeast(88), Command::Live(ToQueue(CreateResource))),
        0x0105 => (Exactly(64), Command::Live(ToQueue(QueueResource))),
        0x0106 => (Exactly(16), Command::Live(ToQueue(DestroyAll))),
        0x0107 => (Exactly(16), Command::Live(ToQueue(Clear))),
        0x0108 => (Exactly(16), Command::Live(ToQueue(GetParameters))),
        0x0109 => (Exactly(120), Command::Live(ToQueue(SetParameters))),
        0x010A | 0x010B => (Exactly(16), Command::Live(Control)),
        0x010C => (AtLeast(16), Command::Live(Control)),
        _ => return None,
    };
    Some(CommandRule { length, command })
}
