//! Block graphs: the graph of a kernel over variables, the graph over block arguments that is made of it, and what their runs are.
#![tactic(auto)]

mod cfg;
mod graph;
mod groups;
mod instr;
mod laws;
mod perform;
mod walk;
mod weight;
mod worked;

pub use cfg::{Cfg, CfgBlock, CfgJump, Write};
pub use el_base::{Array, List, Memory, Name, Op1, Op2, Scalar, Ty};
pub use graph::{Block, Ir, Jump, To};
pub use groups::{Access, Groups};
pub use instr::Instr;
pub use laws::{graphs_are_strict, renamed_steps_do_the_same, renamed_steps_fit};
pub use walk::{Ending, Walk};
pub use worked::samples_run;
