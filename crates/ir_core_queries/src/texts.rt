//! The texts of ids and of unique names, as identifiers.

ghost use Rattle.std.specs.Prelude.{◌≡◌, IfOk, IfErr, string_bytes};
ghost use Rattle.std.specs.Option.{option_copied};
ghost use Rattle.ir_model.specs.Identifier.{IsIdentifier};
ghost use Rattle.ir_model.specs.Names.{block_id, unique_name, value_id};

use ir_base_dialects::{ArenaIndex, CoreError, Identifier};
use ir_base_identifiers::laws::joins_are_identifiers;
use std::alloc::Global;

// The identifier of a text that is known to be one.
fn from_valid(text: String) -> Identifier
    requires { IsIdentifier (string_bytes text) }
    ensures { result ≡ string_bytes text }
{
    match Identifier::try_new(text) {
        Ok(identifier) => identifier,
        Err(_) => unreachable!(),
    }
}

// The id of the value with this number.
pub(crate) fn value_id(alloc: Global, number: u64) -> Result<Identifier, CoreError>
    ensures text { IfOk result (λ id. id ≡ value_id number) }
    ensures memory { IfErr result (λ e. e ≡ CoreError.OutOfMemory) }
{
    let text = format!(in alloc; "v{number}")?;
    Ok(from_valid(text))
}

// The id of the block at this place.
pub(crate) fn block_id(alloc: Global, index: ArenaIndex) -> Result<Identifier, CoreError>
    ensures text { IfOk result (λ id. id ≡ block_id index) }
    ensures memory { IfErr result (λ e. e ≡ CoreError.OutOfMemory) }
{
    joins_are_identifiers();
    let slot = index.slot;
    let version = index.version;
    let text = format!(in alloc; "block{slot}v{version}")?;
    Ok(from_valid(text))
}

// A copy of a name, where one was given.
pub(crate) fn copied(given: Option<&Identifier>) -> Result<Option<Identifier>, CoreError>
    ensures copy { IfOk result (λ copy. copy ≡ option_copied given.entry) }
    ensures memory { IfErr result (λ e. e ≡ CoreError.OutOfMemory) }
{
    match given {
        Some(name) => Ok(Some(name.clone()?)),
        None => Ok(None),
    }
}

// The id, behind the given name and `_` where one is given.
pub(crate) fn unique_name(
    alloc: Global,
    given: Option<&Identifier>,
    id: Identifier,
) -> Result<Identifier, CoreError>
    ensures text { IfOk result (λ name. name ≡ unique_name (option_copied given.entry) id) }
    ensures memory { IfErr result (λ e. e ≡ CoreError.OutOfMemory) }
{
    let Some(name) = given else {
        return Ok(id);
    };
    joins_are_identifiers();
    let text = format!(in alloc; "{}_{}", name.as_str(), id.as_str())?;
    Ok(from_valid(text))
}
