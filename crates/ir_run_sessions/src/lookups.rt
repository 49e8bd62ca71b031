//! How the entries are found that an edit names by their numbers in a table.

ghost use Rattle.std.specs.Prelude.{◌≡◌, ◌<◌, ◌↔◌, Some, length, IfOk, IfSome, IsNone, IsTrue, slice_get};
ghost use Rattle.ir_model.specs.Edits.{Each, The, these};
ghost use Rattle.ir_core_queries.specs.State.{forest_of};

use ir_base_dialects::{Dialects, Ptr};
use ir_core_queries::{
    BasicBlock, BlockPtr, Context, Operation, OperationPtr, Region, RegionPtr, Value, ValueQueries,
};
use std::alloc::{AllocError, Global};

/// An entry of a table, which is live or not.
pub(crate) trait Entry<D: Dialects>: Copy + Drop {
    ghost use Rattle.ir_model.specs.ContextIds.{context_ids};
    ghost use Rattle.ir_model.specs.Forest.{Forest};
    ghost use Rattle.ir_core_records.specs.Meaning.{closed};

    ghost IsLiveIn: { Forest context_ids (closed D.Attr D.TypeKey D.TypeBody D.Saved D.Aux D.Loc) → Self → Type 0 };

    /// Whether it is live.
    fn is_live_in(self, ctx: &Context<D>) -> bool
        ensures { IsTrue result ↔ IsLiveIn (forest_of ctx.now) self };
}

impl<D: Dialects> Entry<D> for Ptr<Operation<D>> {
    ghost use Rattle.ir_model.specs.Forest.{an_op};
    ghost use Rattle.ir_model.specs.Nesting.{IsLive};

    ghost IsLiveIn = { λ f p. IsLive f (an_op p.index) };

    fn is_live_in(self, ctx: &Context<D>) -> bool {
        self.is_live(ctx)
    }
}

impl<D: Dialects> Entry<D> for Ptr<BasicBlock<D>> {
    ghost use Rattle.ir_model.specs.Forest.{a_block};
    ghost use Rattle.ir_model.specs.Nesting.{IsLive};

    ghost IsLiveIn = { λ f p. IsLive f (a_block p.index) };

    fn is_live_in(self, ctx: &Context<D>) -> bool {
        self.is_live(ctx)
    }
}

impl<D: Dialects> Entry<D> for Ptr<Region> {
    ghost use Rattle.ir_model.specs.Forest.{a_region};
    ghost use Rattle.ir_model.specs.Nesting.{IsLive};

    ghost IsLiveIn = { λ f p. IsLive f (a_region p.index) };

    fn is_live_in(self, ctx: &Context<D>) -> bool {
        self.is_live(ctx)
    }
}

impl<D: Dialects> Entry<D> for Value<D> {
    ghost use Rattle.ir_model.specs.Forest.{a_value};
    ghost use Rattle.ir_model.specs.Nesting.{IsLiveNamed};
    ghost use Rattle.ir_core_records.specs.Meaning.{value_of};

    ghost IsLiveIn = { λ f v. IsLiveNamed f (a_value (value_of v.index)) };

    fn is_live_in(self, ctx: &Context<D>) -> bool {
        self.is_live(ctx)
    }
}

/// Whether each number is below the count.
pub(crate) fn all_below(numbers: &[usize], count: usize) -> bool
    ensures { IsTrue result ↔ Each (λ n. n < count) numbers.now }
{
    numbers.iter().all(|number| *number < count)
}

/// The entry with this number, where it is there and live.
pub(crate) fn live_entry<D: Dialects, E: Entry<D>>(
    ctx: &Context<D>,
    table: &[E],
    number: usize,
) -> Option<E>
    ensures found { IfSome result (λ entry. slice_get table.now number ≡ Some entry) }
    ensures live { IfSome result (λ entry. E.IsLiveIn (forest_of ctx.now) entry) }
    ensures missing { IsNone result → The (slice_get table.now number) (λ entry. E.IsLiveIn (forest_of ctx.now) entry) → ⊥ }
{
    let entry = *table.get(number)?;
    if entry.is_live_in(ctx) {
        Some(entry)
    } else {
        None
    }
}

// Whether the entry with this number is there, and live.
fn is_live_at<D: Dialects, E: Entry<D>>(ctx: &Context<D>, table: &[E], number: usize) -> bool
    ensures { IsTrue result ↔ The (slice_get table.now number) (λ entry. E.IsLiveIn (forest_of ctx.now) entry) }
{
    live_entry(ctx, table, number).is_some()
}

/// Whether each of these entries is there, and live.
pub(crate) fn all_live<D: Dialects, E: Entry<D>>(
    ctx: &Context<D>,
    table: &[E],
    numbers: &[usize],
) -> bool
    ensures { IsTrue result ↔ Each (λ n. The (slice_get table.now n) (λ entry. E.IsLiveIn (forest_of ctx.now) entry)) numbers.now }
{
    numbers.iter().all(|number| is_live_at(ctx, table, *number))
}

/// The entries with these numbers, in the order of the numbers.
pub(crate) fn picked<T: Copy + Drop>(
    alloc: Global,
    table: &[T],
    numbers: &[usize],
) -> Result<Vec<T>, AllocError>
    requires { Each (λ n. n < length table.now) numbers.now }
    ensures { IfOk result (λ found. found.items ≡ these table.now numbers.now) }
{
    let mut found = Vec::with_capacity(alloc, numbers.len())?;
    for number in numbers {
        found.push_reserved(table[*number]);
    }
    Ok(found)
}
