//! The door `ir_text` and nothing else: each item that callers are promised is named there, so that the check refuses a door that lacks one, and a text is read, resolved and laid out over it.

mod items;
mod laid_out;
#[cfg(test)]
mod layout_tests;
