//! The words of the command line of `rawgrid`: the command that they are, with its options, or that they are none.
#![tactic(auto)]

mod arguments;
mod laws;
mod limits;

pub use arguments::{
    AloneCommand, Command, CyclesOptions, FlowSet, ReadingCommand, RunOptions, RunOutput, SetForm,
    StateOutput, TraceOptions, TraceOutput, command_in,
};
pub use laws::law_options;
