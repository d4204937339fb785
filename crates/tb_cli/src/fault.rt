//! The reasons why the arguments of the command line are rejected.
ghost use Rattle.std.specs.Prelude.{◌≡◌};
ghost use Rattle.tb_message.specs.Messages.{message_text};
ghost use Rattle.tb_cli.specs.Lines.{word_line};

use tb_message::Message;

/// Why the arguments of the command line were rejected. Positions count from 1.
#[derive(Clone, Copy, Debug, PartialEq, Eq)]
pub enum WordFault {
    /// There were no arguments.
    NoCommand,
    /// The first argument isn't a command (then the position is 1), or the option at this position is none of the command's options. Or
    /// the argument at this position gives the name of a file or of a tool, or a command to connect, and isn't a string. The arguments of
    /// a pair have no command.
    Unknown(usize),
    /// An operand is missing, or the value of an option.
    Missing,
    /// The option at this position was given before, or the argument there is one more than the command's operands.
    Extra(usize),
    /// The argument at this position is no number.
    Number(usize),
    /// The number at this position is out of its range, or the option there is the seventeenth `--connect`.
    Range(usize),
    /// Memory ran out. The arguments may have no error.
    NoMemory,
    /// The argument at this position names a command or an option that isn't built yet. This error never comes: every command and each of
    /// its options is built.
    NotBuilt(usize),
}

impl WordFault {
    /// Returns the text of the line that reports this error, without a newline.
    pub fn message(&self) -> Message<'static>
        ensures { message_text result ≡ word_line self.now }
    {
        match self {
            WordFault::NoCommand => Message::plain(b"words: no command"),
            WordFault::Unknown(position) => Message::numbered(b"words: unknown at ", *position),
            WordFault::Missing => Message::plain(b"words: missing"),
            WordFault::Extra(position) => Message::numbered(b"words: extra at ", *position),
            WordFault::Number(position) => Message::numbered(b"words: number at ", *position),
            WordFault::Range(position) => Message::numbered(b"words: range at ", *position),
            WordFault::NotBuilt(position) => Message::numbered(b"words: not built at ", *position),
            WordFault::NoMemory => Message::plain(b"no memory"),
        }
    }
}
