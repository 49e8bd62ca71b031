//! The calls that need no context: those that may ask for memory, which tests refuse, and those that ask for none, which tests watch.
//!
//! Where a call wants memory, what it was made on is as before, and the same call succeeds afterwards. Each has the names that the list of such calls gives it. `ALL` has each call of its sort: where a new one isn't there, `listed` isn't proved.
//!
//! Nothing else is promised but safety.
#![tactic(auto)]

mod arena_calls;
mod dictionary_calls;
mod identifier_calls;
mod legaliser_calls;
mod list_calls;
mod name_calls;
mod store_call;
mod store_readings;

pub use arena_calls::StoringCall;
pub use dictionary_calls::DictionaryCall;
pub use identifier_calls::IdentifierCall;
pub use legaliser_calls::LegaliserCall;
pub use list_calls::ListCall;
pub use name_calls::NameCall;
pub use store_call::StoreCall;
pub use store_readings::{StoreReading, Stores};
