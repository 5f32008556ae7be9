//! The ways in which an input is written.

/// How an input is written.
#[derive(Clone, Copy, PartialEq, Eq)]
pub enum InputForm {
    /// A set as text.
    Text,
    /// A set as bytes, in version 1 or 2.
    Image,
    /// The text of a plan.
    Plan,
    /// The text of a flow.
    Flow,
    /// A set as text, a line `history`, and steps.
    History,
    /// A set as text, a line `script`, and commands of the debugger.
    Script,
    /// A set as text, a line `claim`, and the text of a flow.
    Claim,
}
