//! Tests of the calls that need no context, and of what is asked of a session, as `tools/refuse-memory` runs them: it refuses each request for memory in turn, and watches which calls make any.
//!
//! Each call is made between two lines of output, `ready` and `done`, below lines `call NAME` with its names in the list of all calls, `crates/lab/calls`. What the calls of the tests whose names end in `_with_memory` are made on is as before where they answer `OutOfMemory`. The calls of those whose names end in `_without_memory` ask for none. Calls on a context are words of the program `lab`.
#![tactic(auto)]

#[cfg(test)]
mod asking_tests;
#[cfg(test)]
mod quiet_tests;
