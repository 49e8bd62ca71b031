//! What kind of operation stands under a handle, as wrappers ask it.

ghost use Rattle.std.specs.Prelude.{◌≡◌, ◌↔◌, Some, IsTrue, IfOk, IfErr, IfSome, IsSome};
ghost use Rattle.std.specs.Option.{option_map};
ghost use Rattle.ir_model.specs.Calls.{kind_of};
ghost use Rattle.ir_model.specs.Forest.{an_op};
ghost use Rattle.ir_model.specs.Nesting.{IsLive};
ghost use Rattle.ir_core_queries.specs.State.{forest_of};
ghost use Rattle.ir_view_parts.specs.Wrapped.{kind_in, operation_in};

use crate::wrappers::{Op, OpObj};
use ir_base_dialects::{CoreError, Dialects, OpId, Ptr};
use ir_core_queries::{Context, Operation, OperationPtr};

/// What can be asked of the handle of a live operation about its kind. It stands for pliron's calls of `Operation`.
pub trait OperationKind<D: Dialects> {
    ghost use Rattle.ir_model.specs.declared.ids.ArenaIndex.{ArenaIndex};

    ghost index_of: { Self → ArenaIndex };

    /// The operation with its kind. It stands for pliron's `Operation::get_op_dyn`.
    fn get_op_dyn(self, ctx: &Context<D>) -> OpObj<D>
        requires { IsLive (forest_of ctx.now) (an_op (index_of self)) }
        ensures operation { operation_in result ≡ index_of self }
        ensures kind { kind_of (forest_of ctx.now) (index_of self) ≡ Some (kind_in result) };

    /// The wrapper of the operation, where its kind is the wrapper's. It stands for pliron's `Operation::get_op`.
    fn get_op<T: Op<D>>(self, ctx: &Context<D>) -> Option<T>
        requires { IsLive (forest_of ctx.now) (an_op (index_of self)) }
        ensures some { IsSome result ↔ (kind_of (forest_of ctx.now) (index_of self) ≡ Some T.KIND) }
        ensures operation { IfSome result (λ op. T.op_of op ≡ index_of self) };

    /// Whether the kind of the operation is the wrapper's. It stands for pliron's `Operation::is_op`.
    fn is_op<T: Op<D>>(self, ctx: &Context<D>) -> bool
        requires { IsLive (forest_of ctx.now) (an_op (index_of self)) }
        ensures { IsTrue result ↔ (kind_of (forest_of ctx.now) (index_of self) ≡ Some T.KIND) };

    /// The id of operations of its kind. It stands for pliron's `Operation::get_opid`.
    ///
    /// # Errors
    /// `OutOfMemory`.
    fn get_opid(self, ctx: &Context<D>) -> Result<OpId, CoreError>
        requires { IsLive (forest_of ctx.now) (an_op (index_of self)) }
        ensures id { IfOk result (λ id. option_map D.op_id_of (kind_of (forest_of ctx.now) (index_of self)) ≡ Some id) }
        ensures memory { IfErr result (λ e. e ≡ CoreError.OutOfMemory) };
}

impl<D: Dialects> OperationKind<D> for Ptr<Operation<D>> {
    ghost index_of = { λ p. p.index };

    fn get_op_dyn(self, ctx: &Context<D>) -> OpObj<D> {
        OpObj::of_kind(self, self.deref(ctx).kind())
    }

    fn get_op<T: Op<D>>(self, ctx: &Context<D>) -> Option<T> {
        self.get_op_dyn(ctx).downcast()
    }

    fn is_op<T: Op<D>>(self, ctx: &Context<D>) -> bool {
        self.deref(ctx).kind() == T::KIND
    }

    fn get_opid(self, ctx: &Context<D>) -> Result<OpId, CoreError> {
        D::op_id(ctx.alloc(), self.deref(ctx).kind())
    }
}
