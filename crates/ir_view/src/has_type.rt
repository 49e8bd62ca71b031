//! What has a type.

ghost use Rattle.std.specs.Prelude.{◌≡◌, ℕ, ◌<◌, length};
ghost use Rattle.ir_model.specs.ContextIds.{context_ids};
ghost use Rattle.ir_model.specs.Forest.{a_value, Value as PlainValue};
ghost use Rattle.ir_model.specs.Nesting.{IsLiveNamed};
ghost use Rattle.ir_model.specs.Uses.{IsUse};
ghost use Rattle.ir_core_records.specs.Meaning.{use_of, value_of};
ghost use Rattle.ir_core_records.specs.Values.{IsLiveUse};
ghost use Rattle.ir_core_queries.specs.State.{forest_of, types_of};
ghost use Rattle.ir_core_queries.specs.Values.{IsOfType};

use ir_base_dialects::{Dialects, TypeHandle};
use ir_core_queries::{Context, Use, UseQueries, Value, ValueQueries};

/// What has a type. It stands for pliron's trait `Typed`.
pub trait Typed<D: Dialects> {
    ghost use Rattle.ir_core_queries.specs.State.{ContextState};

    // It is live, or known.
    ghost IsThere: { ContextState D D.Attr D.TypeKey D.TypeBody D.Saved D.Aux D.Loc → Self → Type 0 };

    // Its type is the one at this place.
    ghost IsTyped: { ContextState D D.Attr D.TypeKey D.TypeBody D.Saved D.Aux D.Loc → Self → ℕ → Type 0 };

    /// Its type. It is live, or known.
    fn get_type(&self, ctx: &Context<D>) -> TypeHandle
        requires { IsThere ctx.now self.now }
        ensures found { IsTyped ctx.now self.now result.place }
        ensures known { result.place < length (types_of ctx.now) };
}

impl<D: Dialects> Typed<D> for Value<D> {
    ghost IsThere = { λ s v. IsLiveNamed (forest_of s) (a_value (value_of v.index)) };

    ghost IsTyped = { λ s v ty. IsOfType (forest_of s) (value_of v.index) ty };

    fn get_type(&self, ctx: &Context<D>) -> TypeHandle {
        ValueQueries::get_type(*self, ctx)
    }
}

impl<D: Dialects> Typed<D> for Use<Value<D>> {
    ghost IsThere = { λ s u. IsLiveUse (forest_of s) (use_of u.index) };

    ghost IsTyped = { λ s u ty. (v : PlainValue context_ids) × (IsUse (forest_of s) (a_value v) (use_of u.index)) × IsOfType (forest_of s) v ty };

    fn get_type(&self, ctx: &Context<D>) -> TypeHandle {
        UseQueries::get_type(*self, ctx)
    }
}

impl<D: Dialects> Typed<D> for TypeHandle {
    ghost IsThere = { λ s t. t.place < length (types_of s) };

    ghost IsTyped = { λ s t ty. ty ≡ t.place };

    fn get_type(&self, _ctx: &Context<D>) -> TypeHandle {
        *self
    }
}

impl<D: Dialects, T: Typed<D>> Typed<D> for &T {
    ghost IsThere = { λ s r. T.IsThere s r.now };

    ghost IsTyped = { λ s r ty. T.IsTyped s r.now ty };

    fn get_type(&self, ctx: &Context<D>) -> TypeHandle {
        Typed::get_type(*self, ctx)
    }
}

impl<D: Dialects, T: Typed<D>> Typed<D> for &mut T {
    ghost IsThere = { λ s r. T.IsThere s r.now };

    ghost IsTyped = { λ s r ty. T.IsTyped s r.now ty };

    fn get_type(&self, ctx: &Context<D>) -> TypeHandle {
        Typed::get_type(&**self, ctx)
    }
}

impl<D: Dialects, T: Typed<D>> Typed<D> for Box<T> {
    ghost IsThere = { λ s b. T.IsThere s b.value };

    ghost IsTyped = { λ s b ty. T.IsTyped s b.value ty };

    fn get_type(&self, ctx: &Context<D>) -> TypeHandle {
        Typed::get_type(self.as_ref(), ctx)
    }
}
