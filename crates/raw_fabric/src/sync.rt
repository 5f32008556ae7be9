//! What threads ask of a fabric and its passes. The functions do nothing: that they are proved is what they say.
use crate::fabric::Fabric;
use crate::pass::Pass;

fn is_sync<T: Sync>(_value: &T) {}

fn is_send<T: Send>(_value: &T) {}

/// Threads may share a fabric, and a pass may go to another thread.
pub fn law_threads(fabric: &Fabric<'_>, pass: &Pass) {
    is_sync(fabric);
    is_send(pass);
}
