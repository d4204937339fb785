//! Reads the words of kinds of steps and of reasons why inputs are dropped.
ghost use Rattle.std.specs.Prelude.{◌≡◌};
ghost use Rattle.std.specs.Str.{bytes_eq};
ghost use Rattle.tb_log_read.specs.Helpers.Words.{kind_of, plain_kind, tool_or_down_kind, why_of};

use tb_log::{LabelKind, Why};

pub(crate) fn is_word(bytes: &[u8], word: &[u8]) -> bool
    ensures { result ≡ bytes_eq bytes.now word.now }
{
    bytes == word
}

/// Returns the kind of step whose line begins with this word.
pub(crate) fn kind_of(word: &[u8]) -> Option<LabelKind>
    ensures { result ≡ kind_of word.now }
{
    match plain_kind(word) {
        Some(kind) => Some(kind),
        None => tool_or_down_kind(word),
    }
}

/// Returns the kind of step with this word, if the step neither concerns a tool nor shuts down the bus.
fn plain_kind(word: &[u8]) -> Option<LabelKind>
    ensures { result ≡ plain_kind word.now }
{
    if is_word(word, b"msg") {
        return Some(LabelKind::Msg);
    }
    if is_word(word, b"set") {
        return Some(LabelKind::Set);
    }
    if is_word(word, b"tau") {
        return Some(LabelKind::Tau);
    }
    if is_word(word, b"printf") {
        return Some(LabelKind::Printf);
    }
    if is_word(word, b"snd-note") {
        return Some(LabelKind::SndNote);
    }
    if is_word(word, b"rec-note") {
        return Some(LabelKind::RecNote);
    }
    if is_word(word, b"no-note") {
        return Some(LabelKind::NoNote);
    }
    if is_word(word, b"subscribe") {
        return Some(LabelKind::Subscribe);
    }
    if is_word(word, b"unsubscribe") {
        return Some(LabelKind::Unsubscribe);
    }
    if is_word(word, b"create") {
        return Some(LabelKind::Create);
    }
    None
}

/// Returns the kind of step with this word, if the step concerns a tool or shuts down the bus.
fn tool_or_down_kind(word: &[u8]) -> Option<LabelKind>
    ensures { result ≡ tool_or_down_kind word.now }
{
    if is_word(word, b"execute") {
        return Some(LabelKind::Execute);
    }
    if is_word(word, b"rec-connect") {
        return Some(LabelKind::RecConnect);
    }
    if is_word(word, b"rec-disconnect") {
        return Some(LabelKind::RecDisconnect);
    }
    if is_word(word, b"snd-eval") {
        return Some(LabelKind::SndEval);
    }
    if is_word(word, b"rec-value") {
        return Some(LabelKind::RecValue);
    }
    if is_word(word, b"snd-do") {
        return Some(LabelKind::SndDo);
    }
    if is_word(word, b"rec-event") {
        return Some(LabelKind::RecEvent);
    }
    if is_word(word, b"snd-ack-event") {
        return Some(LabelKind::SndAckEvent);
    }
    if is_word(word, b"snd-terminate") {
        return Some(LabelKind::SndTerminate);
    }
    if is_word(word, b"shutdown") {
        return Some(LabelKind::Shutdown);
    }
    if is_word(word, b"finish") {
        return Some(LabelKind::Finish);
    }
    if is_word(word, b"halt") {
        return Some(LabelKind::Halt);
    }
    None
}

/// Returns the reason for dropping an input that this word names.
pub(crate) fn why_of(word: &[u8]) -> Option<Why>
    ensures { result ≡ why_of word.now }
{
    if is_word(word, b"unasked") {
        return Some(Why::Unasked);
    }
    if is_word(word, b"not-live") {
        return Some(Why::NotLive);
    }
    if is_word(word, b"named") {
        return Some(Why::Named);
    }
    if is_word(word, b"stranger") {
        return Some(Why::Stranger);
    }
    if is_word(word, b"bad") {
        return Some(Why::Bad);
    }
    if is_word(word, b"down") {
        return Some(Why::Down);
    }
    None
}
