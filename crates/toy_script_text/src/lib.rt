//! Scripts as texts: their reading, their answers, and the status that the program ends with. It needs neither a context nor a session.
#![tactic(auto)]

mod script_error;
mod script_fields;
mod script_parse;
mod script_print;

pub use script_error::ScriptError;
pub use script_parse::{Letter, Part, parse_script};
pub use script_print::{Ending, finish, read_script, refusal_line, write_answers, write_text};
