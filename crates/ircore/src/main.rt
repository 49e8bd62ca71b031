//! The program `ircore`: it reads a script from standard input and carries it out over the dialect Toy. It looks at no arguments.
#![tactic(auto)]

use ir_run::ircore::run_script;
use std::process::ExitCode;

fn main(rt: HostRuntime) -> ExitCode {
    let mut input = rt.stdin();
    let mut output = rt.stdout();
    let mut fault = rt.stderr();
    ExitCode::from(run_script(rt.alloc(), &mut input, &mut output, &mut fault))
}
