//! What a context tells of values and of uses.
//!
//! The list of a value's uses is kept, and has exactly the operands that name the value, each once. So has that of a block's uses, with successors. The order of either is open.

ghost use Rattle.std.specs.Prelude.{◌≡◌, ◌<◌, ◌↔◌, All, length, map, Some, Err, IsTrue, IfOk, IfErr, IfSome, IsErr, IsSome, slice_get};
ghost use Rattle.ir_model.specs.Calls.{loc_of};
ghost use Rattle.ir_model.specs.Forest.{a_value, an_op, definer_entity, the_block, Value as PlainValue};
ghost use Rattle.ir_model.specs.ContextIds.{context_ids};
ghost use Rattle.ir_model.specs.Nesting.{IsLive, IsLiveNamed, numbers_of};
ghost use Rattle.ir_model.specs.Uses.{AreUses, IsOperandAt, IsSuccessorAt, IsUse, Use as PlainUse};
ghost use Rattle.ir_core_records.specs.Meaning.{definer_of, forest_in, use_of, value_of};
ghost use Rattle.ir_core_records.specs.Table.{definitions_at};
ghost use Rattle.ir_core_records.specs.Values.{IsLiveBlockUse, IsLiveUse};
ghost use Rattle.ir_core_context.specs.State.{forest_of, types_of, uses_of};
ghost use Rattle.ir_core_queries.specs.Values.{IsOfType, LacksArgument, LacksResult, missing_from};

use crate::error::{IndexErr, UseError, ValueError};
use ir_base_dialects::{CoreError, Dialects, Ptr, TypeHandle};
use ir_core_context::{Context, DanglingPtrDerefError};
use ir_core_records::{
    BasicBlock, Definer, Definitions, KeptUse, Records, Use, UseIndex, Value, ValueIndex,
    definition, find_operand, find_successor, uses,
};
use std::alloc::Global;

// The results or arguments of what defines a value, where it is live.
#[inline(always)]
fn definitions<D: Dialects>(records: &Records<D>, definer: Definer) -> Option<&Definitions>
    ensures found { IfSome result (λ definitions. definitions.now ≡ definitions_at records.now definer) }
    ensures live { IsSome result ↔ IsLive (forest_in records.now) (definer_entity context_ids (definer_of definer)) }
{
    match definer {
        Definer::Op(op) => Some(&records.ops.get(Ptr::from_index(op))?.results),
        Definer::Block(block) => Some(&records.blocks.get(Ptr::from_index(block))?.arguments),
    }
}

// What a value lacks that isn't found where it was defined.
#[inline(always)]
fn missing(definer: Definer) -> ValueError
    ensures { result ≡ missing_from definer }
{
    match definer {
        Definer::Op(_) => ValueError::NotInOpResult,
        Definer::Block(_) => ValueError::NotInBlockArgument,
    }
}

// Kept uses as handles, in the order in which they are kept.
pub(crate) fn copy_uses<T>(alloc: Global, kept: &[KeptUse]) -> Result<Vec<Use<T>>, CoreError>
    ensures kept { IfOk result (λ uses. map (λ u. use_of u.index) uses.items ≡ map use_of kept.now) }
    ensures memory { IfErr result (λ e. e ≡ CoreError.OutOfMemory) }
{
    let mut uses = Vec::with_capacity(alloc, kept.len())?;
    for used in kept {
        uses.push(Use::from_index(used.used()))?;
    }
    Ok(uses)
}

/// What can be asked of a value. It stands for pliron's calls of `Value`.
pub trait ValueQueries<D: Dialects> {
    ghost use Rattle.ir_core_records.specs.declared.record.ValueIndex.{ValueIndex};

    ghost index_of: { Self → ValueIndex };

    /// Whether what defines the value is live and still has it.
    fn is_live(self, ctx: &Context<D>) -> bool
        ensures { IsTrue result ↔ IsLiveNamed (forest_of ctx.now) (a_value (value_of (index_of self))) };

    /// Where the value stands among the results of its operation, or the arguments of its block.
    ///
    /// # Errors
    /// `DanglingPtrDerefError` where what defines it isn't live, `NotInOpResult` where the live operation has no such result, and `NotInBlockArgument` where the live block has no such argument.
    fn try_find_index(self, ctx: &Context<D>) -> Result<usize, IndexErr>
        ensures found { IfOk result (λ index. slice_get (numbers_of (forest_of ctx.now) (definer_of (index_of self).definer)) index ≡ Some (index_of self).number) }
        ensures missing { IsErr result → IsLiveNamed (forest_of ctx.now) (a_value (value_of (index_of self))) → ⊥ }
        ensures dangling { (result ≡ Err (IndexErr.DanglingPtrDerefError (record {}))) ↔ (IsLive (forest_of ctx.now) (definer_entity context_ids (definer_of (index_of self).definer)) → ⊥) }
        ensures no_result { (result ≡ Err (IndexErr.ValueError ValueError.NotInOpResult)) ↔ LacksResult (forest_of ctx.now) (value_of (index_of self)) }
        ensures no_argument { (result ≡ Err (IndexErr.ValueError ValueError.NotInBlockArgument)) ↔ LacksArgument (forest_of ctx.now) (value_of (index_of self)) };

    /// Where a live value stands among the results of its operation, or the arguments of its block.
    fn find_index(self, ctx: &Context<D>) -> usize
        requires { IsLiveNamed (forest_of ctx.now) (a_value (value_of (index_of self))) }
        ensures { slice_get (numbers_of (forest_of ctx.now) (definer_of (index_of self).definer)) result ≡ Some (index_of self).number };

    /// How many uses a live value has.
    fn num_uses(self, ctx: &Context<D>) -> usize
        requires { IsLiveNamed (forest_of ctx.now) (a_value (value_of (index_of self))) }
        ensures count { result ≡ length (uses_of ctx.now (index_of self)) }
        ensures exact { AreUses (forest_of ctx.now) (a_value (value_of (index_of self))) (uses_of ctx.now (index_of self)) };

    /// Whether a live value has a use.
    fn is_used(self, ctx: &Context<D>) -> bool
        requires { IsLiveNamed (forest_of ctx.now) (a_value (value_of (index_of self))) }
        ensures { IsTrue result ↔ ((u : PlainUse context_ids) × IsUse (forest_of ctx.now) (a_value (value_of (index_of self))) u) };

    /// The uses of a live value, each once. Their order is open, and the same until the context changes.
    ///
    /// # Errors
    /// `OutOfMemory`.
    fn uses(self, ctx: &Context<D>) -> Result<Vec<Use<Value<D>>>, CoreError>
        requires { IsLiveNamed (forest_of ctx.now) (a_value (value_of (index_of self))) }
        ensures kept { IfOk result (λ uses. map (λ u. use_of u.index) uses.items ≡ uses_of ctx.now (index_of self)) }
        ensures exact { AreUses (forest_of ctx.now) (a_value (value_of (index_of self))) (uses_of ctx.now (index_of self)) }
        ensures live { IfOk result (λ uses. All (λ u. IsLiveUse (forest_of ctx.now) (use_of u.index)) uses.items) }
        ensures memory { IfErr result (λ e. e ≡ CoreError.OutOfMemory) };

    /// The type of a live value.
    fn get_type(self, ctx: &Context<D>) -> TypeHandle
        requires { IsLiveNamed (forest_of ctx.now) (a_value (value_of (index_of self))) }
        ensures found { IsOfType (forest_of ctx.now) (value_of (index_of self)) result.place }
        ensures known { result.place < length (types_of ctx.now) };

    /// The location of what defines a live value.
    fn loc(self, ctx: &Context<D>) -> &D::Loc
        requires { IsLiveNamed (forest_of ctx.now) (a_value (value_of (index_of self))) }
        ensures { loc_of (forest_of ctx.now) (definer_of (index_of self).definer) ≡ Some result.now };
}

impl<D: Dialects> ValueQueries<D> for Value<D> {
    ghost index_of = { λ v. v.index };

    #[inline(always)]
    fn is_live(self, ctx: &Context<D>) -> bool {
        self.try_find_index(ctx).is_ok()
    }

    #[inline(always)]
    fn try_find_index(self, ctx: &Context<D>) -> Result<usize, IndexErr> {
        let definer = self.index.definer;
        match definitions(ctx.records(), definer) {
            Some(definitions) => match definitions.find(self.index.number) {
                Some(index) => Ok(index),
                None => Err(IndexErr::ValueError(missing(definer))),
            },
            None => Err(IndexErr::DanglingPtrDerefError(DanglingPtrDerefError)),
        }
    }

    fn find_index(self, ctx: &Context<D>) -> usize {
        match self.try_find_index(ctx) {
            Ok(index) => index,
            Err(_) => unreachable!(),
        }
    }

    #[inline(always)]
    fn num_uses(self, ctx: &Context<D>) -> usize {
        ctx.recall_uses_exact();
        uses(ctx.records(), self.index).len()
    }

    fn is_used(self, ctx: &Context<D>) -> bool {
        ctx.recall_uses_exact();
        !uses(ctx.records(), self.index).is_empty()
    }

    fn uses(self, ctx: &Context<D>) -> Result<Vec<Use<Value<D>>>, CoreError> {
        ctx.recall_uses_exact();
        copy_uses(ctx.alloc(), uses(ctx.records(), self.index).as_slice())
    }

    #[inline(always)]
    fn get_type(self, ctx: &Context<D>) -> TypeHandle {
        ctx.recall_well_formed();
        TypeHandle::at(definition(ctx.records(), self.index).ty)
    }

    fn loc(self, ctx: &Context<D>) -> &D::Loc {
        match self.index.definer {
            Definer::Op(op) => ctx.records().ops.at(Ptr::from_index(op)).loc(),
            Definer::Block(block) => ctx.records().blocks.at(Ptr::from_index(block)).loc(),
        }
    }
}

/// What can be asked of the use of a value. It stands for pliron's calls of `Use<Value>`.
pub trait UseQueries<D: Dialects> {
    ghost use Rattle.ir_core_records.specs.declared.record.UseIndex.{UseIndex};

    ghost index_of: { Self → UseIndex };

    /// Where the use stands among the operands of its user.
    ///
    /// # Errors
    /// `DanglingPtrDerefError` where the user isn't live, and `OperandNotInUserOp` where the live user has no such operand.
    fn try_find_index(self, ctx: &Context<D>) -> Result<usize, IndexErr>
        ensures found { IfOk result (λ index. IsOperandAt (forest_of ctx.now) (use_of (index_of self)) index) }
        ensures live { IfOk result (λ _. IsLiveUse (forest_of ctx.now) (use_of (index_of self))) }
        ensures missing { IsErr result → IsLiveUse (forest_of ctx.now) (use_of (index_of self)) → ⊥ }
        ensures dangling { (result ≡ Err (IndexErr.DanglingPtrDerefError (record {}))) ↔ (IsLive (forest_of ctx.now) (an_op (index_of self).user) → ⊥) }
        ensures no_operand { IsErr result → IsLive (forest_of ctx.now) (an_op (index_of self).user) → result ≡ Err (IndexErr.UseError UseError.OperandNotInUserOp) };

    /// Where a live use stands among the operands of its user.
    fn find_index(self, ctx: &Context<D>) -> usize
        requires { IsLiveUse (forest_of ctx.now) (use_of (index_of self)) }
        ensures { IsOperandAt (forest_of ctx.now) (use_of (index_of self)) result };

    /// The value that a live use names.
    fn get_def(self, ctx: &Context<D>) -> Value<D>
        requires { IsLiveUse (forest_of ctx.now) (use_of (index_of self)) }
        ensures found { IsUse (forest_of ctx.now) (a_value (value_of result.index)) (use_of (index_of self)) }
        ensures live { IsLiveNamed (forest_of ctx.now) (a_value (value_of result.index)) };

    /// The type of the value that a live use names.
    fn get_type(self, ctx: &Context<D>) -> TypeHandle
        requires { IsLiveUse (forest_of ctx.now) (use_of (index_of self)) }
        ensures found { (v : PlainValue context_ids) × (IsUse (forest_of ctx.now) (a_value v) (use_of (index_of self))) × IsOfType (forest_of ctx.now) v result.place }
        ensures known { result.place < length (types_of ctx.now) };
}

impl<D: Dialects> UseQueries<D> for Use<Value<D>> {
    ghost index_of = { λ u. u.index };

    fn try_find_index(self, ctx: &Context<D>) -> Result<usize, IndexErr> {
        ctx.recall_holds_together();
        match ctx.records().ops.get(Ptr::from_index(self.index.user)) {
            Some(op) => match find_operand(op.operands.as_slice(), self.index.number) {
                Some(index) => Ok(index),
                None => Err(IndexErr::UseError(UseError::OperandNotInUserOp)),
            },
            None => Err(IndexErr::DanglingPtrDerefError(DanglingPtrDerefError)),
        }
    }

    fn find_index(self, ctx: &Context<D>) -> usize {
        match self.try_find_index(ctx) {
            Ok(operand) => operand,
            Err(_) => unreachable!(),
        }
    }

    fn get_def(self, ctx: &Context<D>) -> Value<D> {
        ctx.recall_well_formed();
        let index = self.find_index(ctx);
        let user = ctx.records().ops.at(Ptr::from_index(self.index.user));
        Value::from_index(user.operands.at(index).names())
    }

    fn get_type(self, ctx: &Context<D>) -> TypeHandle {
        self.get_def(ctx).get_type(ctx)
    }
}

/// What can be asked of the use of a block as a successor. It stands for pliron's calls of `Use<Ptr<BasicBlock>>`.
pub trait BlockUseQueries<D: Dialects> {
    ghost use Rattle.ir_core_records.specs.declared.record.UseIndex.{UseIndex};

    ghost index_of: { Self → UseIndex };

    /// Where the use stands among the successors of its user.
    ///
    /// # Errors
    /// `DanglingPtrDerefError` where the user isn't live, and `SuccessorNotInUserOp` where the live user has no such successor.
    fn try_find_index(self, ctx: &Context<D>) -> Result<usize, IndexErr>
        ensures found { IfOk result (λ index. IsSuccessorAt (forest_of ctx.now) (use_of (index_of self)) index) }
        ensures live { IfOk result (λ _. IsLiveBlockUse (forest_of ctx.now) (use_of (index_of self))) }
        ensures missing { IsErr result → IsLiveBlockUse (forest_of ctx.now) (use_of (index_of self)) → ⊥ }
        ensures dangling { (result ≡ Err (IndexErr.DanglingPtrDerefError (record {}))) ↔ (IsLive (forest_of ctx.now) (an_op (index_of self).user) → ⊥) }
        ensures no_successor { IsErr result → IsLive (forest_of ctx.now) (an_op (index_of self).user) → result ≡ Err (IndexErr.UseError UseError.SuccessorNotInUserOp) };

    /// Where a live use stands among the successors of its user.
    fn find_index(self, ctx: &Context<D>) -> usize
        requires { IsLiveBlockUse (forest_of ctx.now) (use_of (index_of self)) }
        ensures { IsSuccessorAt (forest_of ctx.now) (use_of (index_of self)) result };

    /// The block that a live use names.
    fn get_def(self, ctx: &Context<D>) -> Ptr<BasicBlock<D>>
        requires { IsLiveBlockUse (forest_of ctx.now) (use_of (index_of self)) }
        ensures found { IsUse (forest_of ctx.now) (the_block result.index) (use_of (index_of self)) }
        ensures live { IsLiveNamed (forest_of ctx.now) (the_block result.index) };
}

impl<D: Dialects> BlockUseQueries<D> for Use<Ptr<BasicBlock<D>>> {
    ghost index_of = { λ u. u.index };

    fn try_find_index(self, ctx: &Context<D>) -> Result<usize, IndexErr> {
        ctx.recall_holds_together();
        match ctx.records().ops.get(Ptr::from_index(self.index.user)) {
            Some(op) => match find_successor(op.successors.as_slice(), self.index.number) {
                Some(index) => Ok(index),
                None => Err(IndexErr::UseError(UseError::SuccessorNotInUserOp)),
            },
            None => Err(IndexErr::DanglingPtrDerefError(DanglingPtrDerefError)),
        }
    }

    fn find_index(self, ctx: &Context<D>) -> usize {
        match self.try_find_index(ctx) {
            Ok(successor) => successor,
            Err(_) => unreachable!(),
        }
    }

    fn get_def(self, ctx: &Context<D>) -> Ptr<BasicBlock<D>> {
        ctx.recall_well_formed();
        let index = self.find_index(ctx);
        let user = ctx.records().ops.at(Ptr::from_index(self.index.user));
        Ptr::from_index(user.successors.at(index).names.index)
    }
}
