//! Keys of saved values, and what they lead to. A key is the place of its value, and two keys are equal exactly where their values are.

ghost use Rattle.std.specs.Prelude.{◌≡◌, ◌↔◌, Some, IsTrue, IfOk, IfErr, OnOk, OnErr, length, option_and_then, slice_get};
ghost use Rattle.ir_model.specs.Saved.{IsSavedAt, IsSavedKind, saved_place, with_saved};
ghost use Rattle.ir_core_context.specs.Calls.{SameButSide};
ghost use Rattle.ir_core_context.specs.State.{bare};
ghost use Rattle.ir_core_records.specs.DialectAnswers.{kinds_of};

use ir_base_dialects::SavedValue;
use ir_core_context::{Context, CoreError, Dialects};
use std::marker::PhantomData;

/// The key of a saved value of type `T`: its place among all that is saved. It stands for pliron's `UniquedKey`.
#[derive_where(Clone, Copy, PartialEq, Eq, Hash)]
#[derive(Drop)]
pub struct UniquedKey<T> {
    /// The place, from 0.
    pub place: usize,
    of: PhantomData<T>,
}

impl<T> UniquedKey<T> {
    // The key of the value at this place.
    fn at(place: usize) -> Self
        ensures { result.place ≡ place }
    {
        UniquedKey {
            place,
            of: PhantomData,
        }
    }

    /// The place.
    pub fn index(self) -> usize
        ensures { result ≡ self.place }
    {
        self.place
    }

    /// Whether the context has a saved value at the key's place, of the kind of `T`.
    pub fn is_known<D: Dialects>(self, ctx: &Context<D>) -> bool
    where
        T: SavedValue<D>,
        ensures { IsTrue result ↔ IsSavedKind (kinds_of D.Dialects D.Saved.eq) (bare ctx.now).beside self.place T.KIND }
    {
        match ctx.saved_at(self.place) {
            Some(saved) => D::saved_kind(saved) == T::KIND,
            None => false,
        }
    }
}

/// Saves a value, and answers its key. Where an equal one is saved already, that one stays, and this one is dropped.
///
/// # Errors
/// `OutOfMemory` where a growth was refused, which comes only for a value that isn't saved yet. Then nothing has changed.
pub fn save<D: Dialects, T: SavedValue<D>>(
    ctx: &mut Context<D>,
    value: T,
) -> Result<UniquedKey<T>, CoreError>
    ensures place { IfOk result (λ key. key.place ≡ saved_place (kinds_of D.Dialects D.Saved.eq) (bare ctx.old).beside (T.saved_of value)) }
    ensures saved { OnOk result ((bare ctx.new).beside ≡ with_saved (kinds_of D.Dialects D.Saved.eq) (bare ctx.old).beside (T.saved_of value)) }
    ensures there { IfOk result (λ key. IsSavedAt (kinds_of D.Dialects D.Saved.eq) (bare ctx.new).beside key.place (T.saved_of value)) }
    ensures known { IfOk result (λ key. IsSavedKind (kinds_of D.Dialects D.Saved.eq) (bare ctx.new).beside key.place T.KIND) }
    ensures rest { SameButSide (bare ctx.old) (bare ctx.new) }
    ensures memory { IfErr result (λ e. e ≡ CoreError.OutOfMemory) }
    ensures err { OnErr result (ctx.new ≡ ctx.old) }
    ensures only_new { OnErr result (saved_place (kinds_of D.Dialects D.Saved.eq) (bare ctx.old).beside (T.saved_of value) ≡ length (bare ctx.old).beside.saved) }
{
    let place = ctx.save_value(value.to_saved())?;
    Ok(UniquedKey::at(place))
}

/// The value under a known key.
pub fn get<D: Dialects, T: SavedValue<D>>(ctx: &Context<D>, key: UniquedKey<T>) -> &T
    requires known { IsSavedKind (kinds_of D.Dialects D.Saved.eq) (bare ctx.now).beside key.place T.KIND }
    ensures { option_and_then T.value_of (slice_get (bare ctx.now).beside.saved key.place) ≡ Some result.now }
{
    match ctx.saved_at(key.place) {
        Some(saved) => match T::of_saved(saved) {
            Some(value) => value,
            None => unreachable!(),
        },
        None => unreachable!(),
    }
}

/// A value that is saved, by its key. It stands for pliron's `Uniqued`.
#[derive_where(Clone, Copy, PartialEq, Eq, Hash)]
#[derive(Drop)]
pub struct Uniqued<T> {
    /// The key.
    pub key: UniquedKey<T>,
}

impl<T> Uniqued<T> {
    /// Saves a value.
    ///
    /// # Errors
    /// `OutOfMemory` where a growth was refused, which comes only for a value that isn't saved yet. Then nothing has changed.
    pub fn new<D: Dialects>(ctx: &mut Context<D>, value: T) -> Result<Self, CoreError>
    where
        T: SavedValue<D>,
        ensures place { IfOk result (λ saved. saved.key.place ≡ saved_place (kinds_of D.Dialects D.Saved.eq) (bare ctx.old).beside (T.saved_of value)) }
        ensures saved { OnOk result ((bare ctx.new).beside ≡ with_saved (kinds_of D.Dialects D.Saved.eq) (bare ctx.old).beside (T.saved_of value)) }
        ensures known { IfOk result (λ saved. IsSavedKind (kinds_of D.Dialects D.Saved.eq) (bare ctx.new).beside saved.key.place T.KIND) }
        ensures rest { SameButSide (bare ctx.old) (bare ctx.new) }
        ensures memory { IfErr result (λ e. e ≡ CoreError.OutOfMemory) }
        ensures err { OnErr result (ctx.new ≡ ctx.old) }
        ensures only_new { OnErr result (saved_place (kinds_of D.Dialects D.Saved.eq) (bare ctx.old).beside (T.saved_of value) ≡ length (bare ctx.old).beside.saved) }
    {
        let key = save(ctx, value)?;
        Ok(Uniqued { key })
    }

    /// The value, where the context knows its key.
    pub fn get<D: Dialects>(self, ctx: &Context<D>) -> &T
    where
        T: SavedValue<D>,
        requires known { IsSavedKind (kinds_of D.Dialects D.Saved.eq) (bare ctx.now).beside self.key.place T.KIND }
        ensures { option_and_then T.value_of (slice_get (bare ctx.now).beside.saved self.key.place) ≡ Some result.now }
    {
        get(ctx, self.key)
    }

    /// The key.
    pub fn key(self) -> UniquedKey<T>
        ensures { result ≡ self.key }
    {
        self.key
    }
}
