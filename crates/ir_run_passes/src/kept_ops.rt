//! The plain operations that a merging kept, found again by the hash of what alike ones agree in.
//!
//! Operations of one hash form a chain, from the one that came last back to the first. Whether two are alike is compared in the context.

ghost use Rattle.std.specs.Prelude.{◌≡◌, ℕ, ◌++◌, [], ◌∷◌, IfSome, IsNone, IfErr, OnOk};
ghost use Rattle.ir_model.specs.declared.ids.ArenaIndex.{ArenaIndex};
ghost use Rattle.ir_model.specs.Nesting.{In};
ghost use Rattle.ir_model_passes.specs.Merging.{Alike};
ghost use Rattle.ir_base_dialects.specs.Attributes.{dict_input, same_pairs};
ghost use Rattle.ir_core_queries.specs.State.{forest_of};
ghost use Rattle.ir_core_records.specs.DialectAnswers.{behaviour_of};
ghost use Rattle.ir_run_passes.specs.AlikeHash.{hash_in};
ghost use Rattle.ir_run_passes.specs.KeptOps.{IsPlainOp, IsIndexed, kept_in};

use crate::alike::are_alike;
use indexmap::IndexMap;
use ir_base_dialects::{ArenaIndex, CoreError, Dialects, Ptr};
use ir_core_queries::{Context, Operation};
use std::alloc::Global;

/// An operation that was kept, and the place of the one with the same hash that was kept last before it.
#[derive(Clone, Copy, Drop)]
pub(crate) struct KeptOp {
    op: ArenaIndex,
    earlier: Option<usize>,
}

/// The operations that were kept, in order, and for each hash the place of the last one that has it.
#[derive(Drop)]
pub(crate) struct KeptOps {
    ops: Vec<KeptOp>,
    latest: IndexMap<u64, usize>,
}

impl KeptOps {
    /// No operations. It takes no memory yet.
    pub(crate) fn new(alloc: Global) -> Self
        ensures none { kept_in result ≡ [] }
        ensures indexed { (hash : ArenaIndex → ℕ) → IsIndexed hash result }
    {
        KeptOps {
            ops: Vec::new(alloc),
            latest: IndexMap::new(alloc),
        }
    }

    /// Keeps an operation, which has this hash.
    pub(crate) fn keep(&mut self, hash: u64, op: ArenaIndex) -> Result<(), CoreError>
        ensures kept { OnOk result (kept_in self.new ≡ kept_in self.old ++ op ∷ []) }
        ensures indexed { OnOk result ((hash_of : ArenaIndex → ℕ) → hash_of op ≡ hash → IsIndexed hash_of self.old → IsIndexed hash_of self.new) }
        ensures memory { IfErr result (λ e. e ≡ CoreError.OutOfMemory) }
    {
        let place = self.ops.len();
        let earlier = self.latest.insert(hash, place)?;
        self.ops.push(KeptOp { op, earlier })?;
        Ok(())
    }

    /// The kept operation that is alike to a plain one, which has this hash.
    pub(crate) fn find<D: Dialects>(
        &self,
        ctx: &Context<D>,
        hash: u64,
        op: Ptr<Operation<D>>,
    ) -> Option<Ptr<Operation<D>>>
        requires op { IsPlainOp (behaviour_of D.Dialects D.TypeKey.eq) (forest_of ctx.now) op.index }
        requires plain { (k : ArenaIndex) → In k (kept_in self.now) → IsPlainOp (behaviour_of D.Dialects D.TypeKey.eq) (forest_of ctx.now) k }
        requires indexed { IsIndexed (hash_in (dict_input D.Attr.hash_input) (forest_of ctx.now)) self.now }
        requires hashed { hash ≡ hash_in (dict_input D.Attr.hash_input) (forest_of ctx.now) op.index }
        ensures kept { IfSome result (λ p. In p.index (kept_in self.now)) }
        ensures alike { IfSome result (λ p. Alike (behaviour_of D.Dialects D.TypeKey.eq) (same_pairs D.Attr.eq) (forest_of ctx.now) p.index op.index) }
        ensures none { IsNone result → (k : ArenaIndex) → In k (kept_in self.now) → Alike (behaviour_of D.Dialects D.TypeKey.eq) (same_pairs D.Attr.eq) (forest_of ctx.now) k op.index → ⊥ }
    {
        let mut place = self.latest.get(&hash).copied();
        while let Some(here) = place {
            let kept = self.ops[here];
            let found = Ptr::from_index(kept.op);
            if are_alike(ctx, found, op) {
                return Some(found);
            }
            place = kept.earlier;
        }
        None
    }
}
