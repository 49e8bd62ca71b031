//! The edits of a session, as plain values: what makes them needs neither a context nor a session.
#![tactic(auto)]

mod edit;

pub use edit::Edit;
