//! The program `elastic`: the words of the command line to a status.
#![tactic(auto)]

use elastic_top::run;
use std::process::ExitCode;

fn main(rt: HostRuntime) -> ExitCode {
    run(&rt, rt.stdout(), rt.stderr())
}
