//! What a call that needs no context is.

use ir_base_dialects::CoreError;
use std::alloc::Global;
use std::fmt::Debug;

/// A call that needs no context and may ask for memory.
pub trait StoreCall: Copy + Debug + Drop {
    /// The name that the list of such calls gives it.
    fn name(self) -> &'static str;

    /// Makes the call. Whether its answer is the full one, or where it wants memory nothing has changed.
    ///
    /// # Errors
    /// Where a request for memory was refused.
    fn make(self, alloc: Global) -> Result<bool, CoreError>;
}
