//! Wrapped operations: types that stand for operations of one kind, and the pair of an operation and a kind.
//!
//! A wrapper holds the handle of its operation alone, and says nothing of whether that is live, or of its kind: who makes one answers for it.

ghost use Rattle.std.specs.Prelude.{◌≡◌, ◌↔◌, ℕ, Some, IsTrue, IfOk, IfErr, IfSome, IsSome};
ghost use Rattle.ir_model.specs.Calls.{loc_of};
ghost use Rattle.ir_model.specs.Forest.{an_op, of_op};
ghost use Rattle.ir_model.specs.Nesting.{IsLive};
ghost use Rattle.ir_core_queries.specs.State.{forest_of};
ghost use Rattle.ir_view_parts.specs.Wrapped.{kind_in, operation_in};

use ir_base_dialects::interfaces::OpInterfaceMarker;
use ir_base_dialects::{CoreError, Dialects, OpId, Ptr};
use ir_core_queries::{Context, Operation, OperationPtr};
use std::alloc::Global;
use std::cmp::PartialEq;
use std::hash::Hash;

/// A type that stands for operations of one kind of the dialect. It stands for pliron's trait `Op`.
///
/// A type that implements it keeps the handle of an operation, and gives the kind, the index in that handle, and the two functions that read it and make it.
pub trait Op<D: Dialects>: Sized {
    ghost use Rattle.ir_model.specs.declared.ids.ArenaIndex.{ArenaIndex};

    ghost KIND: { ℕ };

    /// The kind.
    const KIND: u32;

    // The operation that it wraps.
    ghost op_of: { Self → ArenaIndex };

    /// The operation that it wraps.
    fn get_operation(&self) -> Ptr<Operation<D>>
        ensures { result.index ≡ op_of self.now };

    /// What wraps the operation under this handle. A type that implements the trait writes it, and a caller calls `from_operation`.
    fn wrap(op: &Ptr<Operation<D>>) -> Self
        ensures { op_of result ≡ op.now.index };

    /// What wraps this operation. It doesn't ask whether the operation is of the kind.
    final fn from_operation(op: Ptr<Operation<D>>) -> Self
        ensures { op_of result ≡ op.index }
    {
        Self::wrap(&op)
    }

    /// The id of the operation.
    ///
    /// # Errors
    /// `OutOfMemory`.
    final fn get_opid(&self, alloc: Global) -> Result<OpId, CoreError>
        ensures id { IfOk result (λ id. id ≡ D.op_id_of KIND) }
        ensures memory { IfErr result (λ e. e ≡ CoreError.OutOfMemory) }
    {
        Self::get_opid_static(alloc)
    }

    /// The id of such operations.
    ///
    /// # Errors
    /// `OutOfMemory`.
    final fn get_opid_static(alloc: Global) -> Result<OpId, CoreError>
        ensures id { IfOk result (λ id. id ≡ D.op_id_of KIND) }
        ensures memory { IfErr result (λ e. e ≡ CoreError.OutOfMemory) }
    {
        D::op_id(alloc, Self::KIND)
    }

    /// The location of the operation, which is live. It stands for pliron's `Op::loc`.
    final fn loc<'a>(&self, ctx: &'a Context<D>) -> &'a D::Loc
        requires { IsLive (forest_of ctx.now) (an_op (op_of self.now)) }
        ensures { loc_of (forest_of ctx.now) (of_op (op_of self.now)) ≡ Some result.now }
    {
        self.get_operation().deref(ctx).loc()
    }
}

/// An operation and a kind. It stands for pliron's `OpObj` and `OpBox`.
///
/// Two are equal, and hash equally, where the operation is one, whatever their kinds.
#[derive_where(Clone, Copy, PartialEq, Eq, Hash)]
#[derive(Drop)]
pub struct OpObj<D: Dialects> {
    op: Ptr<Operation<D>>,
    #[derive_where(skip(EqHashOrd))]
    kind: u32,
}

impl<D: Dialects> OpObj<D> {
    /// The operation of a wrapper, with the wrapper's kind.
    pub fn new<T: Op<D> + Drop>(op: T) -> Self
        ensures operation { operation_in result ≡ T.op_of op }
        ensures kind { kind_in result ≡ T.KIND }
    {
        OpObj {
            op: op.get_operation(),
            kind: T::KIND,
        }
    }

    // This operation with this kind.
    pub(crate) fn of_kind(op: Ptr<Operation<D>>, kind: u32) -> Self
        ensures operation { operation_in result ≡ op.index }
        ensures kind { kind_in result ≡ kind }
    {
        OpObj { op, kind }
    }

    /// The operation.
    pub fn get_operation(self) -> Ptr<Operation<D>>
        ensures { result.index ≡ operation_in self }
    {
        self.op
    }

    /// The kind.
    pub fn kind(self) -> u32
        ensures { result ≡ kind_in self }
    {
        self.kind
    }

    /// The wrapper of the operation, where the kind is the wrapper's.
    pub fn downcast<T: Op<D>>(self) -> Option<T>
        ensures some { IsSome result ↔ (kind_in self ≡ T.KIND) }
        ensures operation { IfSome result (λ op. T.op_of op ≡ operation_in self) }
    {
        if self.kind == T::KIND {
            Some(T::from_operation(self.op))
        } else {
            None
        }
    }
}

/// Whether the kind of a wrapped operation implements the interface. It stands for pliron's `op_impls`.
pub fn op_impls<I: OpInterfaceMarker, D: Dialects>(op: OpObj<D>) -> bool
    ensures { result ≡ D.op_impls_of (kind_in op) I.NUMBER }
{
    D::op_impls(op.kind, I::NUMBER)
}

/// Whether such operations implement the interface. It stands for pliron's `op_impls_static`.
pub fn op_impls_static<T: Op<D>, I: OpInterfaceMarker, D: Dialects>() -> bool
    ensures { result ≡ D.op_impls_of T.KIND I.NUMBER }
{
    D::op_impls(T::KIND, I::NUMBER)
}
