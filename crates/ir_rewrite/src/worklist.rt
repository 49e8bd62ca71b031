//! What a driver still has to ask.

ghost use Rattle.std.specs.Prelude.{◌≡◌, ◌⊎◌, IfErr, IfOk, OnOk, map};
ghost use Rattle.ir_model.specs.declared.ids.ArenaIndex.{ArenaIndex};
ghost use Rattle.ir_model.specs.Forest.{an_op};
ghost use Rattle.ir_model.specs.Nesting.{In, Inside, IsLive};
ghost use Rattle.ir_core_context.specs.State.{forest_of};
ghost use Rattle.ir_core_queries.specs.Entities.{meant};

use crate::rewriter::Change;
use ir_base_dialects::{CoreError, Dialects, Ptr};
use ir_core_queries::{Context, Entity, Operation};
use ir_view::walk::inside;

// Puts the operation that an entity is at the end of the list, if it is one.
fn push_op<D: Dialects>(
    ops: &mut Vec<Ptr<Operation<D>>>,
    entity: Entity<D>,
) -> Result<(), CoreError>
    ensures noted { OnOk result ((o : ArenaIndex) → (In o (map (λ p. p.index) ops.old.items) ⊎ (meant entity ≡ an_op o)) → In o (map (λ p. p.index) ops.new.items)) }
    ensures memory { IfErr result (λ e. e ≡ CoreError.OutOfMemory) }
{
    match entity {
        Entity::Op(op) => {
            ops.push(op)?;
            Ok(())
        }
        Entity::Block(_) => Ok(()),
        Entity::Region(_) => Ok(()),
    }
}

// The operations inside a live one, itself among them, so that the last is the first in post-order.
pub(crate) fn all_ops<D: Dialects>(
    ctx: &Context<D>,
    root: Ptr<Operation<D>>,
) -> Result<Vec<Ptr<Operation<D>>>, CoreError>
    requires { IsLive (forest_of ctx.now) (an_op root.index) }
    ensures all { IfOk result (λ ops. (o : ArenaIndex) → Inside (forest_of ctx.now) (an_op root.index) (an_op o) → In o (map (λ p. p.index) ops.items)) }
    ensures memory { IfErr result (λ e. e ≡ CoreError.OutOfMemory) }
{
    let mut ops = Vec::new(ctx.alloc());
    for entity in inside(ctx, Entity::Op(root)) {
        push_op(&mut ops, entity)?;
    }
    ops.reverse();
    Ok(ops)
}

// Puts the operations that were put in, modified or touched at the end of the list.
pub(crate) fn push_changed<D: Dialects>(
    todo: &mut Vec<Ptr<Operation<D>>>,
    changes: &[Change<D>],
) -> Result<(), CoreError>
    ensures { IfErr result (λ e. e ≡ CoreError.OutOfMemory) }
{
    for change in changes {
        match *change {
            Change::Inserted(op) => todo.push(op)?,
            Change::Modified(op) => todo.push(op)?,
            Change::Touched(op) => todo.push(op)?,
            Change::Erased(_) => {}
        }
    }
    Ok(())
}
