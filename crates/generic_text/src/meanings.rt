//! What texts mean in a context: types, names of operations, keys, and texts that are saved. Each is asked of the context once for each distinct text.

ghost use Rattle.std.specs.Prelude.{◌≡◌};
ghost use Rattle.ir_core_queries.specs.State.{forest_of};

use crate::build_error::BuildError;
use generic_dialect::{
    Generic, GenericSaved, GenericType, Kind, TextId, key_identifier, table_kind,
};
use ir_base_dialects::{Identifier, TypeHandle};
use ir_core_queries::Context;
use ir_text_strings::{has_escapes, unescaped};
use std::alloc::Global;
use std::collections::HashMap;

/// What texts mean, as far as they were asked for.
#[derive(Drop)]
pub(crate) struct Meanings<'a> {
    saved: HashMap<&'a [u8], TextId>,
    types: HashMap<&'a [u8], TypeHandle>,
    kinds: HashMap<&'a [u8], Kind>,
    keys: HashMap<&'a [u8], Identifier>,
}

impl<'a> Meanings<'a> {
    /// No meanings yet.
    pub(crate) fn new(alloc: Global) -> Meanings<'a> {
        Meanings {
            saved: HashMap::new(alloc),
            types: HashMap::new(alloc),
            kinds: HashMap::new(alloc),
            keys: HashMap::new(alloc),
        }
    }

    /// The place of a text among the saved ones.
    pub(crate) fn saved(
        &mut self,
        ctx: &mut Context<Generic>,
        text: &'a [u8],
    ) -> Result<TextId, BuildError>
        ensures { forest_of ctx.new ≡ forest_of ctx.old }
    {
        match self.saved.get(&text) {
            Some(id) => Ok(*id),
            None => self.save(ctx, text),
        }
    }

    // Saves a text.
    fn save(&mut self, ctx: &mut Context<Generic>, text: &'a [u8]) -> Result<TextId, BuildError>
        ensures { forest_of ctx.new ≡ forest_of ctx.old }
    {
        let id = save_text(ctx, text)?;
        self.saved.insert(text, id)?;
        Ok(id)
    }

    /// The type that a text is.
    pub(crate) fn type_of(
        &mut self,
        ctx: &mut Context<Generic>,
        text: &'a [u8],
    ) -> Result<TypeHandle, BuildError>
        ensures { forest_of ctx.new ≡ forest_of ctx.old }
    {
        match self.types.get(&text) {
            Some(ty) => Ok(*ty),
            None => self.make_type(ctx, text),
        }
    }

    // Makes the type that a text is.
    fn make_type(
        &mut self,
        ctx: &mut Context<Generic>,
        text: &'a [u8],
    ) -> Result<TypeHandle, BuildError>
        ensures { forest_of ctx.new ≡ forest_of ctx.old }
    {
        let id = self.saved(ctx, text)?;
        let ty = ctx.instantiate_key(GenericType(id))?;
        self.types.insert(text, ty)?;
        Ok(ty)
    }

    /// The kind of operations of that name, which end a block or not.
    pub(crate) fn kind_of(
        &mut self,
        ctx: &mut Context<Generic>,
        name: &'a [u8],
        ends_block: bool,
    ) -> Result<u32, BuildError>
        ensures { forest_of ctx.new ≡ forest_of ctx.old }
    {
        let kind = match self.kinds.get(&name) {
            Some(kind) => Ok(*kind),
            None => self.find_kind(ctx, name),
        }?;
        match ending(kind, ends_block).number() {
            Some(number) => Ok(number),
            None => Err(BuildError::TooManyTexts),
        }
    }

    // Finds the kind of operations of that name.
    fn find_kind(&mut self, ctx: &mut Context<Generic>, name: &'a [u8]) -> Result<Kind, BuildError>
        ensures { forest_of ctx.new ≡ forest_of ctx.old }
    {
        let kind = if has_escapes(name) {
            quoted_kind(ctx, name)
        } else {
            self.plain_kind(ctx, name)
        }?;
        self.kinds.insert(name, kind)?;
        Ok(kind)
    }

    // The kind of operations of a name that is written without escapes.
    fn plain_kind(&mut self, ctx: &mut Context<Generic>, name: &'a [u8]) -> Result<Kind, BuildError>
        ensures { forest_of ctx.new ≡ forest_of ctx.old }
    {
        match table_kind(name) {
            Some(kind) => Ok(Kind::of(kind)),
            None => Ok(open_kind(self.saved(ctx, name)?)),
        }
    }

    /// The identifier of a key.
    pub(crate) fn key_of(
        &mut self,
        alloc: Global,
        key: &'a [u8],
    ) -> Result<Identifier, BuildError> {
        match self.keys.get(&key) {
            Some(identifier) => Ok(identifier.clone()?),
            None => self.make_key(alloc, key),
        }
    }

    // Makes the identifier of a key.
    fn make_key(&mut self, alloc: Global, key: &'a [u8]) -> Result<Identifier, BuildError> {
        let identifier = identifier_of(alloc, key)?;
        self.keys.insert(key, identifier.clone()?)?;
        Ok(identifier)
    }
}

// The place of a text among the saved ones of the context, where it is saved if it isn't yet.
fn save_text(ctx: &mut Context<Generic>, text: &[u8]) -> Result<TextId, BuildError>
    ensures { forest_of ctx.new ≡ forest_of ctx.old }
{
    let copy = Vec::from_slice(ctx.alloc(), text)?;
    let place = ctx.save_value(GenericSaved(copy))?;
    match TextId::at(place) {
        Some(id) => Ok(id),
        None => Err(BuildError::TooManyTexts),
    }
}

// The kind of operations of a name that the table doesn't have, none of which ends a block.
fn open_kind(name: TextId) -> Kind {
    Kind::Open { name, ends: false }
}

// The kind of operations of the name that a text between quotes stands for.
fn quoted_kind(ctx: &mut Context<Generic>, text: &[u8]) -> Result<Kind, BuildError>
    ensures { forest_of ctx.new ≡ forest_of ctx.old }
{
    let name = unescaped(ctx.alloc(), text)?;
    match table_kind(name.as_slice()) {
        Some(kind) => Ok(Kind::of(kind)),
        None => Ok(open_kind(save_text(ctx, name.as_slice())?)),
    }
}

// The identifier of the key that a text between quotes stands for.
fn identifier_of(alloc: Global, text: &[u8]) -> Result<Identifier, BuildError> {
    if has_escapes(text) {
        let bytes = unescaped(alloc, text)?;
        Ok(key_identifier(alloc, bytes.as_slice())?)
    } else {
        Ok(key_identifier(alloc, text)?)
    }
}

// The kind of an operation that ends its block or not: one that the table doesn't have may be a terminator where it ends its block.
fn ending(kind: Kind, ends_block: bool) -> Kind {
    match kind {
        Kind::Listed { row } => Kind::Listed { row },
        Kind::Open { name, .. } => Kind::Open {
            name,
            ends: ends_block,
        },
    }
}
