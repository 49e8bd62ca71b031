//! How a crate of one's own stands on the core: a function that builds a chain of operations, generic in the dialect; and a dialect to be copied, `Calc`, whose attributes, types and operations each have a type of their own, with its checks.
//!
//! Each call of the core settles the condition of the next: a type that was made is known, what a live operation gives is live, and an index below the number of results that were asked for is in range. So the chain tests nothing.
#![tactic(auto)]

mod calc;
mod calc_attributes;
mod calc_checks;
mod calc_ops;
mod calc_types;

ghost use Rattle.std.specs.Prelude.{IfOk};
ghost use Rattle.ir_base.specs.Model.Forest.{a_value};
ghost use Rattle.ir_base.specs.Model.Nesting.{IsLiveNamed};
ghost use Rattle.ir_core.specs.Records.Meaning.{value_of};
ghost use Rattle.ir_core.specs.Context.State.{forest_of};

pub use calc::{Calc, CalcAttr, CalcType, SIZED};
pub use calc_attributes::{Literal, Remark};
pub use calc_checks::{CalcChecks, NO_BITS, SIDES};
pub use calc_ops::{Constant, Less};
pub use calc_types::{Number, SizedInterface, Truth};
use ir_base::context::{CoreError, Dialects};
use ir_core::context::Context;
use ir_core::operation::Operation;
use ir_core::prelude::*;
use ir_core::value::Value;

/// Makes an operation with one result of the type with this key, and behind it a chain of so many operations, each of which uses the result of the one before. Answers the last result, which is live.
///
/// # Errors
/// What `Context::instantiate_key` and `Operation::new` lack. What was made until then stays.
pub fn chain<D: Dialects>(
    ctx: &mut Context<D>,
    key: D::TypeKey,
    length: usize,
) -> Result<Value<D>, CoreError>
    ensures { IfOk result (λ last. IsLiveNamed (forest_of ctx.new) (a_value (value_of last.index))) }
{
    let ty = ctx.instantiate_key(key)?;
    let mut last = Operation::new(ctx, 0, &[ty], &[], &[], 0)?
        .deref(ctx)
        .get_result(0);
    let successors = [];
    for _ in 0..length {
        let types = [ty];
        let operands = [last];
        let next = Operation::new(ctx, 4, &types, &operands, &successors, 0)?;
        last = next.deref(ctx).get_result(0);
    }
    Ok(last)
}
