//! The types of one kind.

ghost use Rattle.std.specs.Prelude.{◌≡◌, ◌<◌, ℕ, Option, Some, is_some, length, nat_eq, position, IfOk, IfErr, IfSome, OnErr, OnOk};
ghost use Rattle.std.specs.Option.{option_copied, option_map};
ghost use Rattle.ir_model.specs.Edits.{type_place, with_type};
ghost use Rattle.ir_model.specs.Kinds.{HasKind};
ghost use Rattle.ir_model.specs.declared.error.CoreError.TheVariants.{OutOfMemory};
ghost use Rattle.ir_core_queries.specs.Calls.{SameButTypes};
ghost use Rattle.ir_core_queries.specs.State.{bare, types_of};
ghost use Rattle.ir_view.specs.Handles.{typed_place};
ghost use Rattle.ir_core_records.specs.DialectAnswers.{behaviour_of, kinds_of};

use crate::typed_handle::TypedHandle;
use ir_base_dialects::{CoreError, Dialects, TypeHandle, TypeId};
use ir_core_queries::Context;
use std::alloc::Global;

/// What stands for the types of one kind of the dialect. It stands for pliron's trait `Type`.
pub trait IrType<D: Dialects>: Eq + Sized {
    ghost KIND: { ℕ };

    /// The kind.
    const KIND: u32;

    // The key that stands for a value.
    ghost key_of: { Self → D.TypeKey };

    // The value for which a key stands.
    ghost value_of: { D.TypeKey → Option Self };

    /// The key that stands for this value.
    fn to_key(self) -> D::TypeKey
        ensures { result ≡ key_of self };

    /// The value for which a key stands, where its kind is this one.
    fn of_key(key: &D::TypeKey) -> Option<&Self>
        ensures { option_copied result ≡ value_of key.now };

    // The key that stands for a value gives it back.
    ghost given_back: { (t : Self) → value_of (key_of t) ≡ Some t };

    // There is a value exactly where the kind is this one.
    ghost of_kind: { (key : D.TypeKey) → is_some (value_of key) ≡ nat_eq (D.type_kind_of key) KIND };

    // Two values are equal exactly where their keys are.
    ghost equal_keys: { (a b : Self) → D.TypeKey.eq (key_of a) (key_of b) ≡ Self.eq a b };

    /// The id of the type.
    ///
    /// # Errors
    /// `OutOfMemory`.
    final fn get_type_id(&self, alloc: Global) -> Result<TypeId, CoreError>
        ensures id { IfOk result (λ id. id ≡ D.type_id_of KIND) }
        ensures memory { IfErr result (λ e. e ≡ OutOfMemory) }
    {
        Self::get_type_id_static(alloc)
    }

    /// The id of such types.
    ///
    /// # Errors
    /// `OutOfMemory`.
    final fn get_type_id_static(alloc: Global) -> Result<TypeId, CoreError>
        ensures id { IfOk result (λ id. id ≡ D.type_id_of KIND) }
        ensures memory { IfErr result (λ e. e ≡ OutOfMemory) }
    {
        D::type_id(alloc, Self::KIND)
    }

    /// The handle of the type that this value stands for, where the context has it. It stands for pliron's `Type::get_self_handle`.
    ///
    /// It takes the value, since the context is searched by a key, and a key is made of a value.
    final fn get_self_handle(self, ctx: &Context<D>) -> Option<TypeHandle>
        ensures found { option_map (λ t. t.place) result ≡ position (λ t. D.TypeKey.eq t.key (key_of self)) (types_of ctx.now) }
        ensures known { IfSome result (λ t. t.place < length (types_of ctx.now)) }
    {
        ctx.find_type(&self.to_key())
    }

    /// The type that this value stands for; where the context has none that is equal it is stored last, with the default body. It stands for pliron's `Type::instantiate`.
    ///
    /// The type that was stored first stays, and the argument is dropped.
    ///
    /// # Errors
    /// `OutOfMemory`, only for a type that isn't stored yet; it changes nothing.
    final fn instantiate(self, ctx: &mut Context<D>) -> Result<TypedHandle<Self, D>, CoreError>
        ensures place { IfOk result (λ t. typed_place t ≡ type_place (behaviour_of D.Dialects D.TypeKey.eq) (types_of ctx.old) (key_of self)) }
        ensures kind { IfOk result (λ t. HasKind (kinds_of D.Dialects D.Saved.eq) (types_of ctx.new) (typed_place t) KIND) }
        ensures types { OnOk result (types_of ctx.new ≡ with_type (behaviour_of D.Dialects D.TypeKey.eq) (types_of ctx.old) (key_of self)) }
        ensures rest { SameButTypes (bare ctx.old) (bare ctx.new) }
        ensures memory { IfErr result (λ e. e ≡ OutOfMemory) }
        ensures err { OnErr result (ctx.new ≡ ctx.old) }
        ensures only_new { OnErr result (type_place (behaviour_of D.Dialects D.TypeKey.eq) (types_of ctx.old) (key_of self) ≡ length (types_of ctx.old)) }
    {
        let handle = ctx.instantiate_key(self.to_key())?;
        Ok(TypedHandle::of_handle(handle))
    }
}
