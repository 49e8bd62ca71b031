//! Dictionaries of the attributes of the dialect Toy.

ghost use Rattle.std.specs.Prelude.{◌≡◌};

use crate::identifier_calls::owned;
use crate::store_call::StoreCall;
use ir_base_dialects::attribute::AttributeDict;
use ir_base_dialects::{CoreError, Identifier, TypeHandle};
use std::alloc::Global;
use toy_dialect::{Toy, ToyInt, ToyOutlined, ToyText};

/// A call on a dictionary.
#[derive(Clone, Copy, Debug, Drop)]
pub enum DictionaryCall {
    /// `set` of the first pair.
    First,
    /// `set` of pairs behind others, until the dictionary has grown more than once.
    More,
    /// `clone`.
    Clone,
    /// `clone_skip_outlined`.
    CloneSkipOutlined,
    /// `shrink_to_fit`.
    ShrinkToFit,
}

impl DictionaryCall {
    /// All of them.
    pub const ALL: [DictionaryCall; 5] = [
        DictionaryCall::First,
        DictionaryCall::More,
        DictionaryCall::Clone,
        DictionaryCall::CloneSkipOutlined,
        DictionaryCall::ShrinkToFit,
    ];

    /// The call as `ALL` has it.
    pub fn listed(self) -> DictionaryCall
        ensures { result ≡ self }
    {
        DictionaryCall::ALL[self as usize]
    }
}

impl StoreCall for DictionaryCall {
    fn name(self) -> &'static str {
        match self {
            DictionaryCall::First | DictionaryCall::More => "AttributeDict::set",
            DictionaryCall::Clone => "AttributeDict::clone",
            DictionaryCall::CloneSkipOutlined => "clone_skip_outlined",
            DictionaryCall::ShrinkToFit => "AttributeDict::shrink_to_fit",
        }
    }

    fn make(self, alloc: Global) -> Result<bool, CoreError> {
        match self {
            DictionaryCall::First => sets(alloc, &mut AttributeDict::new(alloc), "a", 1),
            DictionaryCall::More => set_nine(alloc, &mut AttributeDict::new(alloc)),
            DictionaryCall::Clone => copies(&three(alloc)?),
            DictionaryCall::CloneSkipOutlined => skips_one(&three(alloc)?),
            DictionaryCall::ShrinkToFit => shrinks(three(alloc)?),
        }
    }
}

// Whether the copy is equal.
fn copies(dict: &AttributeDict<Toy>) -> Result<bool, CoreError> {
    Ok(dict.clone()? == *dict)
}

// Whether the copy lacks the text that is to be outlined, and that alone.
fn skips_one(dict: &AttributeDict<Toy>) -> Result<bool, CoreError> {
    let copy = dict.clone_skip_outlined()?;
    let hidden = copy.get::<ToyOutlined>(&Identifier::new("hidden"));
    Ok((copy.len(), hidden.is_none()) == (2, true))
}

// Whether the pairs are the same once memory was given back.
fn shrinks(mut dict: AttributeDict<Toy>) -> Result<bool, CoreError> {
    let before = dict.clone()?;
    dict.shrink_to_fit();
    Ok(dict == before)
}

// A number with this value.
fn number(value: i64) -> ToyInt {
    ToyInt {
        value,
        ty: TypeHandle::at(0),
    }
}

// Sets the number at the key.
fn set_number(
    alloc: Global,
    dict: &mut AttributeDict<Toy>,
    key: &str,
    value: i64,
) -> Result<(), CoreError> {
    dict.set(owned(alloc, key)?, number(value))
}

// Whether the number stands at the key.
fn has_number(
    alloc: Global,
    dict: &AttributeDict<Toy>,
    key: &str,
    value: i64,
) -> Result<bool, CoreError> {
    let name = owned(alloc, key)?;
    let found = dict.get::<ToyInt>(&name);
    Ok(found.is_some_and(|number| number.value == value))
}

// Whether the number is set at the key. Where memory lacks, the dictionary is as before, and takes it afterwards.
fn sets(
    alloc: Global,
    dict: &mut AttributeDict<Toy>,
    key: &str,
    value: i64,
) -> Result<bool, CoreError> {
    let before = dict.clone()?;
    let ended = set_number(alloc, dict, key, value);
    if ended == Err(CoreError::OutOfMemory) {
        let is_as_before = *dict == before;
        set_number(alloc, dict, key, value)?;
        return Ok(is_as_before && dict.len() == before.len().wrapping_add(1));
    }
    has_number(alloc, dict, key, value)
}

// Whether nine pairs are set, one after the other.
fn set_nine(alloc: Global, dict: &mut AttributeDict<Toy>) -> Result<bool, CoreError> {
    let mut done = true;
    for key in ["a", "b", "c", "d", "e", "f", "g", "h", "i"] {
        done &= sets(alloc, dict, key, 7)?;
    }
    Ok(done && dict.len() == 9)
}

// A text.
fn text(alloc: Global) -> Result<String, CoreError> {
    Ok(String::from_str(alloc, "x")?)
}

// Sets a number, a text, and a text that is to be outlined.
fn set_three(alloc: Global, dict: &mut AttributeDict<Toy>) -> Result<(), CoreError> {
    set_number(alloc, dict, "number", 3)?;
    dict.set(owned(alloc, "text")?, ToyText(text(alloc)?))?;
    dict.set(owned(alloc, "hidden")?, ToyOutlined(text(alloc)?))
}

// A dictionary with a number, a text, and a text that is to be outlined.
fn three(alloc: Global) -> Result<AttributeDict<Toy>, CoreError> {
    let mut dict = AttributeDict::new(alloc);
    set_three(alloc, &mut dict)?;
    Ok(dict)
}
