//! Names of auxiliary data.
//!
//! A name leads to an index, whether or not there is still data under it.

ghost use Rattle.std.specs.Prelude.{◌≡◌, None, IfErr, OnOk, OnErr, bytes_eq};
ghost use Rattle.std.specs.Option.{option_map};
ghost use Rattle.ir_model.specs.declared.error.CoreError.TheVariants.{OutOfMemory};
ghost use Rattle.ir_model.specs.Changes.{put};
ghost use Rattle.ir_core_data.specs.Names.{index_at, no_names};

use crate::aux_index::AuxDataIndex;
use ir_base_dialects::Identifier;
use ir_model::CoreError;
use std::alloc::Global;
use std::collections::HashMap;
use std::marker::Model;

/// A map from names to indices of auxiliary data.
#[derive(Drop)]
pub struct AuxNames {
    indices: HashMap<Identifier, AuxDataIndex>,
}

impl Model for AuxNames {
    ghost use Rattle.ir_core_data.specs.Names.{NameTable};

    ghost Value = { NameTable };

    ghost view = { λ n. n.indices.entries };
}

impl AuxNames {
    /// No names. It takes no memory yet.
    pub fn new(alloc: Global) -> Self
        ensures { result ≡ no_names }
    {
        AuxNames {
            indices: HashMap::new(alloc),
        }
    }

    /// The index that the name leads to.
    pub fn get(&self, name: &Identifier) -> Option<AuxDataIndex>
        ensures { option_map (λ found. found.index) result ≡ index_at self.now name.now }
    {
        self.indices.get(name).copied()
    }

    /// Makes the name lead to the index, also where it led elsewhere. `OutOfMemory` comes only for a name that led nowhere, and changes nothing.
    pub fn set(&mut self, name: Identifier, index: AuxDataIndex) -> Result<(), CoreError>
        ensures set { OnOk result (index_at self.new ≡ put bytes_eq name index.index (index_at self.old)) }
        ensures memory { IfErr result (λ error. error ≡ OutOfMemory) }
        ensures err { OnErr result (self.new ≡ self.old) }
        ensures only_new { OnErr result (index_at self.old name ≡ None) }
    {
        self.indices.insert(name, index)?;
        Ok(())
    }
}
