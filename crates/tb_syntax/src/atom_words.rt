//! The words of atoms and of time conditions: their texts, and how many arguments an atom takes.

ghost use Rattle.std.specs.Prelude.{◌≡◌};
ghost use Rattle.std.specs.List.{find};
ghost use Rattle.std.specs.Str.{bytes_eq};
ghost use Rattle.tb_syntax.specs.AtomWords.{atom_text, atom_words, atom_word, is_atom_word, fewest, takes_more, time_text, time_words, time_word, is_time_word};

/// The word of an atom that is written as a word with arguments. `create` isn't among them: it takes a call.
#[derive(Clone, Copy, Debug, PartialEq, Eq)]
pub enum AtomWord {
    /// `delta`
    Delta,
    /// `tau`
    Tau,
    /// `printf`
    Printf,
    /// `snd-msg`
    SndMsg,
    /// `rec-msg`
    RecMsg,
    /// `snd-note`
    SndNote,
    /// `rec-note`
    RecNote,
    /// `no-note`
    NoNote,
    /// `subscribe`
    Subscribe,
    /// `unsubscribe`
    Unsubscribe,
    /// `execute`
    Execute,
    /// `rec-connect`
    RecConnect,
    /// `rec-disconnect`
    RecDisconnect,
    /// `snd-eval`
    SndEval,
    /// `rec-value`
    RecValue,
    /// `snd-do`
    SndDo,
    /// `rec-event`
    RecEvent,
    /// `snd-ack-event`
    SndAckEvent,
    /// `snd-terminate`
    SndTerminate,
    /// `shutdown`
    Shutdown,
}

/// All atom words, each once.
static ATOM_WORDS: [AtomWord; 20] = [
    AtomWord::Delta,
    AtomWord::Tau,
    AtomWord::Printf,
    AtomWord::SndMsg,
    AtomWord::RecMsg,
    AtomWord::SndNote,
    AtomWord::RecNote,
    AtomWord::NoNote,
    AtomWord::Subscribe,
    AtomWord::Unsubscribe,
    AtomWord::Execute,
    AtomWord::RecConnect,
    AtomWord::RecDisconnect,
    AtomWord::SndEval,
    AtomWord::RecValue,
    AtomWord::SndDo,
    AtomWord::RecEvent,
    AtomWord::SndAckEvent,
    AtomWord::SndTerminate,
    AtomWord::Shutdown,
];

/// Returns the atom word with this text, if there is one.
pub fn atom_word(name: &[u8]) -> Option<AtomWord>
    ensures { result ≡ atom_word name.now }
{
    find_atom(&ATOM_WORDS, name)
}

/// Returns whether a name is an atom word.
pub fn is_atom_word(name: &[u8]) -> bool
    ensures { result ≡ is_atom_word name.now }
{
    atom_word(name).is_some()
}

fn find_atom(words: &[AtomWord], name: &[u8]) -> Option<AtomWord>
    ensures { result ≡ find (λ word. bytes_eq name.now (atom_text word)) words.now }
{
    for word in words {
        if name == word.text().as_bytes() {
            return Some(*word);
        }
    }
    None
}

impl AtomWord {
    /// Returns the text of the word.
    pub fn text(self) -> &'static str
        ensures { result.now ≡ atom_text self }
    {
        match self {
            AtomWord::Delta => "delta",
            AtomWord::Tau => "tau",
            AtomWord::Printf => "printf",
            AtomWord::SndMsg => "snd-msg",
            AtomWord::RecMsg => "rec-msg",
            AtomWord::SndNote => "snd-note",
            AtomWord::RecNote => "rec-note",
            AtomWord::NoNote => "no-note",
            AtomWord::Subscribe => "subscribe",
            AtomWord::Unsubscribe => "unsubscribe",
            AtomWord::Execute => "execute",
            AtomWord::RecConnect => "rec-connect",
            AtomWord::RecDisconnect => "rec-disconnect",
            AtomWord::SndEval => "snd-eval",
            AtomWord::RecValue => "rec-value",
            AtomWord::SndDo => "snd-do",
            AtomWord::RecEvent => "rec-event",
            AtomWord::SndAckEvent => "snd-ack-event",
            AtomWord::SndTerminate => "snd-terminate",
            AtomWord::Shutdown => "shutdown",
        }
    }

    /// Returns the least number of arguments that the atom takes.
    pub fn fewest(self) -> usize
        ensures { result ≡ fewest self }
    {
        match self {
            AtomWord::Delta | AtomWord::Tau => 0,
            AtomWord::Printf
            | AtomWord::SndMsg
            | AtomWord::RecMsg
            | AtomWord::SndNote
            | AtomWord::RecNote
            | AtomWord::NoNote
            | AtomWord::Subscribe
            | AtomWord::Unsubscribe
            | AtomWord::RecConnect
            | AtomWord::RecDisconnect
            | AtomWord::Shutdown => 1,
            AtomWord::Execute
            | AtomWord::SndEval
            | AtomWord::RecValue
            | AtomWord::SndDo
            | AtomWord::RecEvent
            | AtomWord::SndAckEvent
            | AtomWord::SndTerminate => 2,
        }
    }

    /// Returns whether the atom can take more arguments than `fewest`.
    pub fn takes_more(self) -> bool
        ensures { result ≡ takes_more self }
    {
        match self {
            AtomWord::Printf
            | AtomWord::SndMsg
            | AtomWord::RecMsg
            | AtomWord::SndNote
            | AtomWord::RecNote
            | AtomWord::NoNote
            | AtomWord::Subscribe
            | AtomWord::Unsubscribe
            | AtomWord::RecEvent
            | AtomWord::SndAckEvent => true,
            AtomWord::Delta
            | AtomWord::Tau
            | AtomWord::Execute
            | AtomWord::RecConnect
            | AtomWord::RecDisconnect
            | AtomWord::SndEval
            | AtomWord::RecValue
            | AtomWord::SndDo
            | AtomWord::SndTerminate
            | AtomWord::Shutdown => false,
        }
    }
}

/// The word of a time condition of an atom.
#[derive(Clone, Copy, Debug, PartialEq, Eq)]
pub enum TimeWord {
    /// `delay`
    Delay,
    /// `timeout`
    Timeout,
    /// `abs-delay`
    AbsDelay,
    /// `abs-timeout`
    AbsTimeout,
}

/// All words of time conditions, each once.
static TIME_WORDS: [TimeWord; 4] = [
    TimeWord::Delay,
    TimeWord::Timeout,
    TimeWord::AbsDelay,
    TimeWord::AbsTimeout,
];

/// Returns the word of a time condition with this text, if there is one.
pub fn time_word(name: &[u8]) -> Option<TimeWord>
    ensures { result ≡ time_word name.now }
{
    find_time(&TIME_WORDS, name)
}

/// Returns whether a name is the word of a time condition.
pub fn is_time_word(name: &[u8]) -> bool
    ensures { result ≡ is_time_word name.now }
{
    time_word(name).is_some()
}

fn find_time(words: &[TimeWord], name: &[u8]) -> Option<TimeWord>
    ensures { result ≡ find (λ word. bytes_eq name.now (time_text word)) words.now }
{
    for word in words {
        if name == word.text().as_bytes() {
            return Some(*word);
        }
    }
    None
}

impl TimeWord {
    /// Returns the text of the word.
    pub fn text(self) -> &'static str
        ensures { result.now ≡ time_text self }
    {
        match self {
            TimeWord::Delay => "delay",
            TimeWord::Timeout => "timeout",
            TimeWord::AbsDelay => "abs-delay",
            TimeWord::AbsTimeout => "abs-timeout",
        }
    }
}
