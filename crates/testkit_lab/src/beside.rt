//! What a lab stored beside the forest.

use ir_base_dialects::TypeHandle;
use ir_core_context::AuxDataIndex;
use ir_core_uniqued::{Uniqued, UniquedKey};
use std::alloc::{AllocError, Global};

/// What was saved, by its key alone or as saved.
#[derive(Clone, Copy, Drop)]
pub enum Saved {
    /// A text.
    Text(UniquedKey<String>),
    /// A number without sign.
    Unsigned(UniquedKey<u64>),
    /// A number with sign.
    Signed(UniquedKey<i64>),
    /// A text, as saved.
    UniqueText(Uniqued<String>),
    /// A number without sign, as saved.
    UniqueUnsigned(Uniqued<u64>),
    /// A number with sign, as saved.
    UniqueSigned(Uniqued<i64>),
}

/// What was stored beside the forest.
#[derive(Drop)]
pub struct Beside {
    /// The indices of auxiliary data.
    pub aux: Vec<AuxDataIndex>,
    /// What was saved.
    pub saved: Vec<Saved>,
    /// A type in a box, of which the type is asked.
    pub held: Box<TypeHandle>,
}

impl Beside {
    /// Nothing, and some type.
    ///
    /// # Errors
    /// Where a growth was refused.
    pub(crate) fn new(alloc: Global) -> Result<Beside, AllocError> {
        Ok(Beside {
            aux: Vec::new(alloc),
            saved: Vec::new(alloc),
            held: Box::new(alloc, TypeHandle::at(0))?,
        })
    }

    /// Takes all entries out.
    pub(crate) fn forget(&mut self, alloc: Global) {
        self.aux = Vec::new(alloc);
        self.saved = Vec::new(alloc);
    }
}
