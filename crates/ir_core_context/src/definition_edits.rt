//! The results of a live operation and the arguments of a live block, edited alike: each call takes what defines them.

ghost use Rattle.std.specs.Prelude.{◌≡◌, ◌<◌, ◌≤◌, ◌↔◌, length, Err, IfOk, OnErr, OnOk};
ghost use Rattle.ir_model.specs.ContextIds.{context_ids};
ghost use Rattle.ir_model.specs.Edits.{one_number};
ghost use Rattle.ir_model.specs.Forest.{definer_entity};
ghost use Rattle.ir_model.specs.Nesting.{IsLive, definitions_of};
ghost use Rattle.ir_model.specs.Sessions.{LacksNumbers};
ghost use Rattle.ir_core_records.specs.Meaning.{definer_of};
ghost use Rattle.ir_core_context.specs.Calls.{EntitiesStayLive, KeepsAll, SameButForest};
ghost use Rattle.ir_core_context.specs.Definitions.{MakesValue, StayLiveBut, UnusedAt, ValueAt, definition_inserted, definition_popped, definition_pushed, definition_removed, last_place};
ghost use Rattle.ir_core_context.specs.State.{bare, forest_of, types_of};

use crate::context::Context;
use crate::needs::has_value_number;
use ir_base_dialects::{CoreError, Dialects, TypeHandle};
use ir_core_chains::{insert_definition, pop_definition, push_definition, remove_definition};
use ir_core_records::Definer;

// Puts a result or argument of a known type at the end, and answers its index.
pub(crate) fn push_value<D: Dialects>(
    ctx: &mut Context<D>,
    definer: Definer,
    ty: TypeHandle,
) -> Result<usize, CoreError>
    requires live { IsLive (forest_of ctx.old) (definer_entity context_ids (definer_of definer)) }
    requires known { ty.place < length (types_of ctx.old) }
    ensures index { IfOk result (λ at. at ≡ length (definitions_of (forest_of ctx.old) (definer_of definer))) }
    ensures made { OnOk result (MakesValue (bare ctx.old) (bare ctx.new) (definition_pushed (forest_of ctx.old) (definer_of definer) ty.place)) }
    ensures keeps { KeepsAll ctx.old ctx.new }
    ensures counter { (result ≡ Err CoreError.CounterSpent) ↔ LacksNumbers (bare ctx.old) one_number }
    ensures slots { ¬ (result ≡ Err CoreError.SlotsSpent) }
    ensures err { OnErr result (ctx.new ≡ ctx.old) }
{
    has_value_number(ctx)?;
    let index = push_definition(&mut ctx.records, ctx.alloc, definer, ctx.next_value, ty)?;
    ctx.next_value += 1;
    Ok(index)
}

// Puts a result or argument of a known type at an index up to their number; what stood there and behind it moves one place on.
pub(crate) fn insert_value<D: Dialects>(
    ctx: &mut Context<D>,
    definer: Definer,
    index: usize,
    ty: TypeHandle,
) -> Result<(), CoreError>
    requires live { IsLive (forest_of ctx.old) (definer_entity context_ids (definer_of definer)) }
    requires in_range { index ≤ length (definitions_of (forest_of ctx.old) (definer_of definer)) }
    requires known { ty.place < length (types_of ctx.old) }
    ensures made { OnOk result (MakesValue (bare ctx.old) (bare ctx.new) (definition_inserted (forest_of ctx.old) (definer_of definer) index ty.place)) }
    ensures keeps { KeepsAll ctx.old ctx.new }
    ensures counter { (result ≡ Err CoreError.CounterSpent) ↔ LacksNumbers (bare ctx.old) one_number }
    ensures slots { ¬ (result ≡ Err CoreError.SlotsSpent) }
    ensures err { OnErr result (ctx.new ≡ ctx.old) }
{
    has_value_number(ctx)?;
    insert_definition(
        &mut ctx.records,
        ctx.alloc,
        definer,
        index,
        ctx.next_value,
        ty,
    )?;
    ctx.next_value += 1;
    Ok(())
}

// Takes the unused result or argument at an index out; those behind it move up.
pub(crate) fn remove_value<D: Dialects>(ctx: &mut Context<D>, definer: Definer, index: usize)
    requires live { IsLive (forest_of ctx.old) (definer_entity context_ids (definer_of definer)) }
    requires unused { UnusedAt (forest_of ctx.old) (definer_of definer) index }
    ensures forest { forest_of ctx.new ≡ definition_removed (forest_of ctx.old) (definer_of definer) index }
    ensures rest { SameButForest (bare ctx.old) (bare ctx.new) }
    ensures stay_live { ValueAt (forest_of ctx.old) (definer_of definer) index (StayLiveBut (forest_of ctx.old) (forest_of ctx.new)) }
    ensures entities_stay_live { EntitiesStayLive (forest_of ctx.old) (forest_of ctx.new) }
{
    remove_definition(&mut ctx.records, definer, index);
}

// Takes the last result or argument out, which is unused.
pub(crate) fn pop_value<D: Dialects>(ctx: &mut Context<D>, definer: Definer)
    requires live { IsLive (forest_of ctx.old) (definer_entity context_ids (definer_of definer)) }
    requires unused { UnusedAt (forest_of ctx.old) (definer_of definer) (last_place (forest_of ctx.old) (definer_of definer)) }
    ensures forest { forest_of ctx.new ≡ definition_popped (forest_of ctx.old) (definer_of definer) }
    ensures rest { SameButForest (bare ctx.old) (bare ctx.new) }
    ensures stay_live { ValueAt (forest_of ctx.old) (definer_of definer) (last_place (forest_of ctx.old) (definer_of definer)) (StayLiveBut (forest_of ctx.old) (forest_of ctx.new)) }
    ensures entities_stay_live { EntitiesStayLive (forest_of ctx.old) (forest_of ctx.new) }
{
    pop_definition(&mut ctx.records, definer);
}
