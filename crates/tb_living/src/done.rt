//! The result of a step: the terms in its entry of the log, and the bindings of its process.
use tb_log::LabelKind;
use tb_match::Binds;
use tb_terms::Terms;

/// The result of a step: its kind and its terms, as its label shows them, and the bindings of its process.
#[derive(Drop)]
pub struct Done {
    /// The kind of the step's label.
    pub kind: LabelKind,
    /// The terms of the step's label.
    pub shown: Terms,
    /// The values that the process binds to its slots.
    pub binds: Binds,
}
