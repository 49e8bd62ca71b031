//! What a context tells of the handle of a type. A handle is a place, known where the context has a type there.

ghost use Rattle.std.specs.Prelude.{◌≡◌, ◌<◌, ◌↔◌, length, Some, IsTrue, slice_get};
ghost use Rattle.std.specs.Option.{option_map};
ghost use Rattle.ir_model.specs.Saved.{set_body as with_body};
ghost use Rattle.ir_core_context.specs.Calls.{SameButTypes};
ghost use Rattle.ir_core_context.specs.State.{bare, types_of};

use crate::context::Context;
use ir_base_dialects::{Dialects, TypeHandle};

/// What can be asked of the handle of a type. It stands for pliron's calls of `TypeHandle`.
pub trait TypeQueries<D: Dialects> {
    ghost use Rattle.std.specs.Prelude.{ℕ};

    ghost place_of: { Self → ℕ };

    /// Whether the context has the type.
    fn is_known(self, ctx: &Context<D>) -> bool
        ensures { IsTrue result ↔ (place_of self < length (types_of ctx.now)) };

    /// The key of a known type.
    fn deref(self, ctx: &Context<D>) -> &D::TypeKey
        requires { place_of self < length (types_of ctx.now) }
        ensures { option_map (λ t. t.key) (slice_get (types_of ctx.now) (place_of self)) ≡ Some result.now };

    /// The body of a known type.
    fn body(self, ctx: &Context<D>) -> &D::TypeBody
        requires { place_of self < length (types_of ctx.now) }
        ensures { option_map (λ t. t.body) (slice_get (types_of ctx.now) (place_of self)) ≡ Some result.now };

    /// Sets the body of a known type; the one before is dropped. Its key and all handles stay, and it takes no memory.
    fn set_body(self, ctx: &mut Context<D>, body: D::TypeBody)
        requires { place_of self < length (types_of ctx.old) }
        ensures types { types_of ctx.new ≡ with_body (types_of ctx.old) (place_of self) body }
        ensures rest { SameButTypes (bare ctx.old) (bare ctx.new) };
}

impl<D: Dialects> TypeQueries<D> for TypeHandle {
    ghost place_of = { λ t. t.place };

    fn is_known(self, ctx: &Context<D>) -> bool {
        self.place < ctx.types.len()
    }

    fn deref(self, ctx: &Context<D>) -> &D::TypeKey {
        match ctx.types.key(self.place) {
            Some(key) => key,
            None => unreachable!(),
        }
    }

    fn body(self, ctx: &Context<D>) -> &D::TypeBody {
        match ctx.types.body(self.place) {
            Some(body) => body,
            None => unreachable!(),
        }
    }

    fn set_body(self, ctx: &mut Context<D>, body: D::TypeBody) {
        ctx.types.set_body(self.place, body);
    }
}
