//! The walks of a haul, step by step, and that its tree is their union.
//!
//! `specs/Walks.antt` defines a walk as the places that it comes to one after another, and `law_walks` says that the tree
//! goes along the walks. It does nothing when called.
#![tactic(auto)]

pub mod laws;

pub use laws::law_walks;
