//! What has a name of its own: values and blocks.

ghost use Rattle.std.specs.Prelude.{◌≡◌, ⊤, IfOk, IfErr};
ghost use Rattle.std.specs.Option.{option_copied};
ghost use Rattle.ir_model.specs.Edits.{The};
ghost use Rattle.ir_model.specs.Forest.{a_block, a_value};
ghost use Rattle.ir_model.specs.Names.{IsBlockName, IsGivenName, IsValueName, block_id, unique_name, value_id};
ghost use Rattle.ir_model.specs.Nesting.{IsLive, IsLiveNamed};
ghost use Rattle.ir_core_records.specs.Meaning.{block_index, value_of};
ghost use Rattle.ir_core_context.specs.State.{forest_of};

use crate::texts;
use ir_base_dialects::{CoreError, Dialects, Identifier, Ptr};
use ir_core_context::{BasicBlock, Context, Value};
use ir_core_records::definition;

/// What has a name of its own in a context: a value or a block, by its handle or by its record. It stands for pliron's trait `Named`.
pub trait Named<D: Dialects> {
    ghost use Rattle.std.specs.Prelude.{Option};
    ghost use Rattle.ir_model.specs.ContextIds.{context_ids};
    ghost use Rattle.ir_model.specs.Forest.{Forest, Text};
    ghost use Rattle.ir_core_records.specs.Meaning.{closed};

    // It is live.
    ghost IsThere: { Forest context_ids (closed D.Attr D.TypeKey D.TypeBody D.Saved D.Aux D.Loc) → Self → Type 0 };

    // This is what it was given for a name: a text, or none.
    ghost IsGiven: { Forest context_ids (closed D.Attr D.TypeKey D.TypeBody D.Saved D.Aux D.Loc) → Self → Option Text → Type 0 };

    // The text of its id.
    ghost id_of: { Self → Text };

    // The text is its unique name.
    ghost IsUnique: { Forest context_ids (closed D.Attr D.TypeKey D.TypeBody D.Saved D.Aux D.Loc) → Self → Text → Type 0 };

    /// A copy of the name that a live value or block was given, if it was given one: a value's name, a block's label.
    ///
    /// # Errors
    /// `OutOfMemory`.
    fn given_name(&self, ctx: &Context<D>) -> Result<Option<Identifier>, CoreError>
        requires { IsThere (forest_of ctx.now) self.now }
        ensures given { IfOk result (λ name. IsGiven (forest_of ctx.now) self.now name) }
        ensures memory { IfErr result (λ e. e ≡ CoreError.OutOfMemory) };

    /// The id of a live value or block: `v` and the value's number, or `block`, slot, `v` and version.
    ///
    /// # Errors
    /// `OutOfMemory`.
    fn id(&self, ctx: &Context<D>) -> Result<Identifier, CoreError>
        requires { IsThere (forest_of ctx.now) self.now }
        ensures text { IfOk result (λ id. id ≡ id_of self.now) }
        ensures memory { IfErr result (λ e. e ≡ CoreError.OutOfMemory) };

    /// The unique name of a live value or block: its id, behind the given name and `_` where it was given one.
    ///
    /// # Errors
    /// `OutOfMemory`.
    fn unique_name(&self, ctx: &Context<D>) -> Result<Identifier, CoreError>
        requires { IsThere (forest_of ctx.now) self.now }
        ensures text { IfOk result (λ name. IsUnique (forest_of ctx.now) self.now name) }
        ensures memory { IfErr result (λ e. e ≡ CoreError.OutOfMemory) };
}

// What a live value was given for a name.
fn value_name<D: Dialects>(ctx: &Context<D>, value: Value<D>) -> Option<&Identifier>
    requires { IsLiveNamed (forest_of ctx.now) (a_value (value_of value.index)) }
    ensures { IsGivenName (forest_of ctx.now) (value_of value.index) (option_copied result) }
{
    match &definition(ctx.records(), value.index).name {
        Some(name) => Some(name),
        None => None,
    }
}

impl<D: Dialects> Named<D> for Value<D> {
    ghost IsThere = { λ f v. IsLiveNamed f (a_value (value_of v.index)) };

    ghost IsGiven = { λ f v name. IsGivenName f (value_of v.index) name };

    ghost id_of = { λ v. value_id v.index.number };

    ghost IsUnique = { λ f v text. IsValueName f (value_of v.index) text };

    fn given_name(&self, ctx: &Context<D>) -> Result<Option<Identifier>, CoreError> {
        texts::copied(value_name(ctx, *self))
    }

    fn id(&self, ctx: &Context<D>) -> Result<Identifier, CoreError> {
        texts::value_id(ctx.alloc(), self.index.number)
    }

    fn unique_name(&self, ctx: &Context<D>) -> Result<Identifier, CoreError> {
        let id = texts::value_id(ctx.alloc(), self.index.number)?;
        texts::unique_name(ctx.alloc(), value_name(ctx, *self), id)
    }
}

impl<D: Dialects> Named<D> for BasicBlock<D> {
    ghost IsThere = { λ f b. ⊤ };

    ghost IsGiven = { λ f b name. name ≡ b.rest.label };

    ghost id_of = { λ b. block_id (block_index b) };

    ghost IsUnique = { λ f b text. text ≡ unique_name b.rest.label (block_id (block_index b)) };

    fn given_name(&self, _ctx: &Context<D>) -> Result<Option<Identifier>, CoreError> {
        texts::copied(self.rest.label.as_ref())
    }

    fn id(&self, ctx: &Context<D>) -> Result<Identifier, CoreError> {
        texts::block_id(ctx.alloc(), self.index)
    }

    fn unique_name(&self, ctx: &Context<D>) -> Result<Identifier, CoreError> {
        let id = texts::block_id(ctx.alloc(), self.index)?;
        texts::unique_name(ctx.alloc(), self.rest.label.as_ref(), id)
    }
}

impl<D: Dialects> Named<D> for Ptr<BasicBlock<D>> {
    ghost IsThere = { λ f p. IsLive f (a_block p.index) };

    ghost IsGiven = { λ f p name. The (f.blocks p.index) λ r. name ≡ r.label };

    ghost id_of = { λ p. block_id p.index };

    ghost IsUnique = { λ f p text. IsBlockName f p.index text };

    fn given_name(&self, ctx: &Context<D>) -> Result<Option<Identifier>, CoreError> {
        ctx.records().blocks.at(*self).given_name(ctx)
    }

    fn id(&self, ctx: &Context<D>) -> Result<Identifier, CoreError> {
        texts::block_id(ctx.alloc(), self.index())
    }

    fn unique_name(&self, ctx: &Context<D>) -> Result<Identifier, CoreError> {
        ctx.recall_holds_together();
        ctx.records().blocks.at(*self).unique_name(ctx)
    }
}
