//! The part of a lab that stands on the small dialect.

use crate::marked::MarkedForest;
use crate::small_dialect::Small;
use crate::small_types::{ListedType, SizedType};
use ir_view::types::TypedHandle;
use ir_view_parts::Context;
use std::alloc::{AllocError, Global};

/// A context over the small dialect, and what a lab keeps beside it.
#[derive(Drop)]
pub struct SmallLab {
    /// The context.
    pub context: Box<Context<Small>>,
    /// The forest in which each sort of check is run somewhere, once it is made.
    pub forest: Option<MarkedForest>,
    /// A handle that says that its type is sized, also when another context has begun.
    pub sized: Option<TypedHandle<SizedType, Small>>,
    /// A handle that says that its type is listed, as the other one.
    pub listed: Option<TypedHandle<ListedType, Small>>,
}

impl SmallLab {
    /// An empty context, and nothing beside it.
    ///
    /// # Errors
    /// Where a growth was refused.
    pub fn new(alloc: Global) -> Result<SmallLab, AllocError> {
        Ok(SmallLab {
            context: Box::new(alloc, Context::new(alloc))?,
            forest: None,
            sized: None,
            listed: None,
        })
    }

    /// Begins another context. The handles stay.
    ///
    /// # Errors
    /// Where a growth was refused.
    pub fn begin(&mut self, alloc: Global) -> Result<(), AllocError> {
        self.context = Box::new(alloc, Context::new(alloc))?;
        self.forest = None;
        Ok(())
    }
}
