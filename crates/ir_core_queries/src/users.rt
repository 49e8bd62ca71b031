//! The operations that name a block, found by the kept list of its uses.

ghost use Rattle.std.specs.Prelude.{◌≡◌, ◌↔◌, All, IsTrue, map};
ghost use Rattle.ir_model.specs.declared.ids.ArenaIndex.{ArenaIndex};
ghost use Rattle.ir_model.specs.Edits.{UsersLinked};
ghost use Rattle.ir_model.specs.Forest.{a_block, an_op, the_block};
ghost use Rattle.ir_model.specs.Nesting.{In, IsLinked, IsLive, names_of};
ghost use Rattle.ir_model.specs.Uses.{AreUses};
ghost use Rattle.ir_core_records.specs.Meaning.{use_of};
ghost use Rattle.ir_core_context.specs.State.{block_uses_of, forest_of};

use crate::entity::is_linked;
use ir_base_dialects::{Dialects, Ptr};
use ir_core_context::Context;
use ir_core_records::{BasicBlock, BlockIndex, EntityIndex, KeptUse, block_uses};

/// The kept uses of a live block, for the crates that read them: their users are the operations that name it.
pub fn kept_uses<D: Dialects>(ctx: &Context<D>, block: Ptr<BasicBlock<D>>) -> &[KeptUse]
    requires { IsLive (forest_of ctx.now) (a_block block.index) }
    ensures kept { map use_of result.now ≡ block_uses_of ctx.now block.index }
    ensures exact { AreUses (forest_of ctx.now) (the_block block.index) (map use_of result.now) }
    ensures users { (o : ArenaIndex) → In (the_block block.index) (names_of (forest_of ctx.now) o) ↔ In o (map (λ u. u.user) result.now) }
    ensures linked { All (λ u. IsLinked (forest_of ctx.now) (an_op u.user)) result.now ↔ UsersLinked (forest_of ctx.now) block.index }
{
    ctx.recall_uses_exact();
    let uses = block_uses(ctx.records(), BlockIndex { index: block.index });
    uses.as_slice()
}

// Whether the user of a use stands in a block.
fn is_user_linked<D: Dialects>(ctx: &Context<D>, used: &KeptUse) -> bool
    ensures { IsTrue result ↔ IsLinked (forest_of ctx.now) (an_op used.now.user) }
{
    is_linked(ctx, EntityIndex::Op(used.user()))
}

// Whether each of the users of these uses stands in a block.
pub(crate) fn all_linked<D: Dialects>(ctx: &Context<D>, uses: &[KeptUse]) -> bool
    ensures { IsTrue result ↔ All (λ u. IsLinked (forest_of ctx.now) (an_op u.user)) uses.now }
{
    uses.iter().all(|used| is_user_linked(ctx, used))
}
