//! The uses of all results of an operation.
//!
//! They are read from the lists that the results keep, in the order of the results.

ghost use Rattle.std.specs.Prelude.{◌≡◌, ◌^◌, ◌<◌, ◌==◌, ⊤, length, map, not};
ghost use Rattle.std.specs.Iterator.{YieldsFirstBy, item_count};
ghost use Rattle.std.specs.List.{flat_map, list_any};
ghost use Rattle.ir_core_records.specs.Meaning.{use_of};

use ir_base_dialects::Dialects;
use ir_core_records::{Definition, KeptUse, Use, Value};
use std::marker::{Model, PhantomData};

// How many uses the results have together.
pub(crate) fn count_uses(results: &[Definition]) -> usize
    requires { length (flat_map (λ r. r.uses) results.now) < 2 ^ 64 }
    ensures { result ≡ length (flat_map (λ r. r.uses) results.now) }
{
    let mut count = 0;
    for result in results {
        count += result.uses.len();
    }
    count
}

// Whether a result has a use.
pub(crate) fn has_any_use(results: &[Definition]) -> bool
    ensures { result ≡ list_any (λ r. not (length r.uses == 0)) results.now }
{
    results.iter().any(|r| !r.uses.is_empty())
}

/// The uses of all results of an operation, each once. It stands for what pliron's `Operation::uses` returns.
///
/// A contract sees it as the list of the uses that are left.
pub struct OperationUses<'a, D: Dialects> {
    // The uses that are left of one result.
    uses: &'a [KeptUse],
    // The results after that one.
    results: &'a [Definition],
    of: PhantomData<D>,
}

impl<'a, D: Dialects> Model for OperationUses<'a, D> {
    ghost use Rattle.std.specs.Prelude.{List, ◌++◌, map};
    ghost use Rattle.std.specs.List.{flat_map};
    ghost use Rattle.ir_model.specs.ContextIds.{context_ids};
    ghost use Rattle.ir_model.specs.Uses.{Use as PlainUse};
    ghost use Rattle.ir_core_records.specs.Meaning.{use_of};

    ghost Value = { List (PlainUse context_ids) };

    ghost view = { λ it. map use_of (it.uses.now ++ flat_map (λ r. r.uses) it.results.now) };
}

impl<'a, D: Dialects> Drop for OperationUses<'a, D> {
    fn drop(self) {
        let OperationUses {
            uses: _,
            results: _,
            of: _,
        } = self;
    }
}

impl<'a, D: Dialects> OperationUses<'a, D> {
    // The uses of these results.
    pub(crate) fn of_results(results: &'a [Definition]) -> Self
        ensures { result ≡ map use_of (flat_map (λ r. r.uses) results.now) }
    {
        OperationUses {
            uses: &[],
            results,
            of: PhantomData,
        }
    }
}

impl<'a, D: Dialects> Iterator for OperationUses<'a, D> {
    type Item = Use<Value<D>>;

    ghost can_next = { λ _. ⊤ };

    ghost next_gives = { YieldsFirstBy (λ u. use_of u.index) (λ us. us) };

    ghost remaining = { item_count (λ us. us) };

    fn next(&mut self) -> Option<Use<Value<D>>> {
        while self.uses.is_empty() {
            let (result, others) = self.results.split_first()?;
            self.uses = result.uses.as_slice();
            self.results = others;
        }
        let (first, others) = self.uses.split_first()?;
        self.uses = others;
        Some(Use::from_index(first.used()))
    }
}
