//! The calls of an operation, a block or a region, whichever it is.

ghost use Rattle.std.specs.Prelude.{IfOk, IsTrue, ◌↔◌};
ghost use Rattle.ir_checked_core.specs.Answers.{Answers, own_value, unless};
ghost use Rattle.ir_checked_core.specs.Dead.{dead_entity};
ghost use Rattle.ir_core_context.specs.State.{forest_of};
ghost use Rattle.ir_core_queries.specs.Entities.{meant};
ghost use Rattle.ir_model.specs.Nesting.{IsClosed, IsLive};

use crate::asked::is_live;
use crate::error::{Call, CheckedErr, Condition, Unmet};
use ir_base_dialects::Dialects;
use ir_core_queries::{Context, Entity};

/// Whether a live entity can be erased: exactly where each operand or successor that names a definition of its subtree belongs to an operation of the subtree. It takes no memory, and asks each use of what is inside once.
///
/// # Errors
/// `Unmet` where the entity isn't live.
pub fn can_erase<D: Dialects>(ctx: &Context<D>, entity: Entity<D>) -> Result<bool, CheckedErr>
    ensures conditions { Answers Call.EntityCanErase result (unless (IsLive (forest_of ctx.now) (meant entity)) (dead_entity entity) own_value) }
    ensures found { IfOk result (λ answer. IsTrue answer ↔ IsClosed (forest_of ctx.now) (meant entity)) }
{
    if !is_live(ctx, entity) {
        return Err(CheckedErr::Unmet(Unmet {
            call: Call::EntityCanErase,
            condition: Condition::dead(entity),
        }));
    }
    Ok(ir_core_queries::can_erase(ctx, entity))
}
