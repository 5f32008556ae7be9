//! The answer of a call.
use raw_inputs::InputFlaw;

/// How a call of the program ended: how a command did that was done, or why it was not done.
pub type Answer = raw_shell::Answer<InputFlaw>;
