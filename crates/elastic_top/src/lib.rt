//! The top call: words, files and sinks to a status.
#![tactic(auto)]

mod answer;
mod benches;
mod call;
mod compiling;
mod exits;
mod fault;
mod going;
mod interpretation;
mod laws;
mod line;
mod options;
mod program;
mod reading;
mod runs;
mod states;
mod status;
mod telling;
mod upgrade;

pub use call::top;
pub use exits::process;
pub use laws::{
    benches_refuse_nothing, calls_print_once, ending_kernels_go, interpreted_kernels_are_run,
    kernels_are_compiled, long_files_are_one, printed_circuits_show_the_end,
    ref_and_go_show_one_end, resumed_calls_print_as_runs, sound_runs_are_answered,
    typed_texts_are_answered,
};
pub use program::run;
pub use status::Status;
