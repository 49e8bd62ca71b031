//! Links that may be absent.

ghost use Rattle.std.specs.Prelude.{◌≡◌, ◌≤◌, Some, None};
ghost use Rattle.std.specs.Option.{option_or};

use crate::ArenaIndex;
use std::marker::Model;
use std::mem::size_of;

/// An index that may be absent, in 8 bytes: slots count from 1, and slot 0 stands for none.
///
/// A contract sees it as the index, if there is one.
#[derive(Clone, Copy, Drop)]
pub struct Link {
    slot: u32,
    version: u32,
}

// An `Option<ArenaIndex>` takes 12 bytes.
const _: () = prove!(size_of::<Link>() == 8);

impl Model for Link {
    ghost use Rattle.std.specs.Prelude.{Option};
    ghost use Rattle.ir_model.specs.declared.ids.ArenaIndex.{ArenaIndex};

    ghost Value = { Option ArenaIndex };

    ghost use Rattle.ir_base_arenas.specs.Link.{link_index, link_fields, IsLink, fields_again};

    ghost view = { λ l. link_index l.slot l.version };

    ghost inverse = { link_fields };

    ghost invariant = { IsLink };

    ghost inverse_ok = { λ l is. fields_again l.slot l.version is };
}

impl Link {
    /// No index.
    pub fn none() -> Link
        ensures { result ≡ None }
    {
        Link {
            slot: 0,
            version: 0,
        }
    }

    /// This index, which has a slot, as each live one has.
    pub fn some(index: ArenaIndex) -> Link
        requires { 1 ≤ index.slot }
        ensures { result ≡ Some index }
    {
        Link {
            slot: index.slot,
            version: index.version,
        }
    }

    /// The index, if there is one.
    pub fn get(self) -> Option<ArenaIndex>
        ensures { result ≡ self }
    {
        if self.slot == 0 {
            None
        } else {
            Some(ArenaIndex {
                slot: self.slot,
                version: self.version,
            })
        }
    }

    // This link, or the other where this one is none.
    pub(crate) fn or(self, other: Link) -> Link
        ensures { result ≡ option_or self other }
    {
        match self.get() {
            Some(_) => self,
            None => other,
        }
    }
}
