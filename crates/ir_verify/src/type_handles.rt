//! Handles of types of one kind, and of types with an interface, as what can be verified.

ghost use Rattle.std.specs.Prelude.{◌≡◌, slice_get};
ghost use Rattle.ir_model.specs.Edits.{The};
ghost use Rattle.ir_model.specs.Faults.{the_type, the_typed};
ghost use Rattle.ir_model.specs.Kinds.{HasKind, Implements};
ghost use Rattle.ir_view.specs.Handles.{interface_place, typed_place};
ghost use Rattle.ir_view_parts.specs.State.{types_of};
ghost use Rattle.ir_core_records.specs.DialectAnswers.{kinds_of};

use crate::checks::{check_own_type, check_type};
use crate::error::VerifyErr;
use crate::verifiers::Verifiers;
use crate::verify::Verify;
use ir_base_dialects::Dialects;
use ir_base_dialects::interfaces::TypeInterfaceMarker;
use ir_view::types::{IrType, TypeInterfaceHandle, TypedHandle};
use ir_view_parts::{Context, TypeQueries};

impl<D: Dialects, T: IrType<D>> Verify<D> for TypedHandle<T, D> {
    ghost IsThere = { λ s t. HasKind (kinds_of D.Dialects D.Saved.eq) (types_of s) (typed_place t) T.KIND };

    ghost IsRoot = { λ s t root. The (slice_get (types_of s) (typed_place t)) λ x. root ≡ the_typed x.key };

    fn verify<V: Verifiers<D>>(&self, ctx: &Context<D>, verifiers: &V) -> Result<(), VerifyErr> {
        check_own_type(self.to_handle().deref(ctx), ctx, verifiers)
    }
}

impl<D: Dialects, I: TypeInterfaceMarker> Verify<D> for TypeInterfaceHandle<I, D> {
    ghost IsThere = { λ s t. Implements (kinds_of D.Dialects D.Saved.eq) (types_of s) (interface_place t) I.NUMBER };

    ghost IsRoot = { λ s t root. The (slice_get (types_of s) (interface_place t)) λ x. root ≡ the_type x.key };

    fn verify<V: Verifiers<D>>(&self, ctx: &Context<D>, verifiers: &V) -> Result<(), VerifyErr> {
        check_type(self.deref(ctx), ctx, verifiers)
    }
}
