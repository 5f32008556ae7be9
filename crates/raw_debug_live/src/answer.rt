//! How a call ended.
use raw_live_head::LineFlaw;

/// How a call ended.
pub(crate) type Answer = raw_shell::Answer<LineFlaw>;
