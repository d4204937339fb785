//! The names of atoms.

use tb_body::Act;
use tb_syntax::AtomWord;

/// Returns the name of an atom as scripts write it. For an assignment, this is `:=`.
pub(crate) fn act_name(act: &Act) -> &'static [u8] {
    match word_of(act) {
        Some(word) => word.text().as_bytes(),
        None => match act {
            Act::Create { .. } => b"create",
            _ => b":=",
        },
    }
}

/// Returns the word of an atom that is written as a word with arguments. `create` and assignments have none.
fn word_of(act: &Act) -> Option<AtomWord> {
    match act {
        Act::Delta => Some(AtomWord::Delta),
        Act::Tau => Some(AtomWord::Tau),
        Act::SndMsg(_) => Some(AtomWord::SndMsg),
        Act::RecMsg(_) => Some(AtomWord::RecMsg),
        Act::SndNote(_) => Some(AtomWord::SndNote),
        Act::RecNote(_) => Some(AtomWord::RecNote),
        Act::NoNote(_) => Some(AtomWord::NoNote),
        Act::Subscribe(_) => Some(AtomWord::Subscribe),
        Act::Unsubscribe(_) => Some(AtomWord::Unsubscribe),
        Act::Printf(_) => Some(AtomWord::Printf),
        Act::Execute { .. } => Some(AtomWord::Execute),
        Act::RecConnect { .. } => Some(AtomWord::RecConnect),
        Act::RecDisconnectAny { .. } | Act::RecDisconnect(_) => Some(AtomWord::RecDisconnect),
        Act::SndEval(_, _) => Some(AtomWord::SndEval),
        Act::RecValue(_, _) => Some(AtomWord::RecValue),
        Act::SndDo(_, _) => Some(AtomWord::SndDo),
        Act::RecEvent(_, _) => Some(AtomWord::RecEvent),
        Act::SndAckEvent(_, _) => Some(AtomWord::SndAckEvent),
        Act::SndTerminate(_, _) => Some(AtomWord::SndTerminate),
        Act::Shutdown(_) => Some(AtomWord::Shutdown),
        Act::Create { .. } | Act::Set { .. } => None,
    }
}
