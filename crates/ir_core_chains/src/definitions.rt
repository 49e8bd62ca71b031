//! The results of an operation and the arguments of a block, edited alike: each call takes what defines them.

ghost use Rattle.std.specs.Prelude.{◌≡◌, ◌-◌, ◌<◌, ◌≤◌, ◌++◌, ◌∷◌, [], length, insert, option_map, remove, IfOk, OnOk, OnErr, slice_get, Some};
ghost use Rattle.std.specs.Borrow.{sem};
ghost use Rattle.ir_model.specs.Calls.{on_definitions, set_name as with_value_name, set_type as with_value_type};
ghost use Rattle.ir_model.specs.Changes.{definition};
ghost use Rattle.ir_core_records.specs.declared.record.Definition.{Definition};
ghost use Rattle.ir_core_records.specs.Chains.{chains_of, AreLinked};
ghost use Rattle.ir_core_records.specs.Frames.{KeepsTree};
ghost use Rattle.ir_core_records.specs.Meaning.{forest_in, definer_of, value_of};
ghost use Rattle.ir_core_records.specs.Table.{definitions_at, uses_at, IsValue};
ghost use Rattle.ir_core_chains.specs.Definers.{IsDefiner};
ghost use Rattle.ir_core_chains.specs.Lends.{lends_definitions};

use ir_base_dialects::{Dialects, Identifier, Ptr, TypeHandle};
use ir_core_records::{Definer, Definitions, Records, ValueIndex};
use std::alloc::{AllocError, Global};

// The results of a live operation, or the arguments of a live block, for writing.
fn definitions_mut<D: Dialects>(records: &mut Records<D>, definer: Definer) -> &mut Definitions
    requires { IsDefiner records.old definer }
    ensures* writes_back { sem 𝓛 (lends_definitions D.row D.Attr.row D.TypeKey.row D.TypeBody.row D.Saved.row D.Aux.row D.Loc.row D.Dialects D.Attr.Hash D.TypeKey.Hash D.TypeBody.Default D.Saved.Hash D.Loc.Default records.entry definer result) }
    ensures value { result.now ≡ definitions_at records.old definer }
{
    match definer {
        Definer::Op(op) => &mut records.ops.at_mut(Ptr::from_index(op)).results,
        Definer::Block(block) => &mut records.blocks.at_mut(Ptr::from_index(block)).arguments,
    }
}

/// Puts a result or argument with a new number and this type at an index, before the one that stands there. It has no name and no uses.
///
/// # Errors
/// Where the list had to grow and couldn't. Then nothing has changed.
pub fn insert_definition<D: Dialects>(
    records: &mut Records<D>,
    alloc: Global,
    definer: Definer,
    index: usize,
    number: u64,
    ty: TypeHandle,
) -> Result<(), AllocError>
    requires live { IsDefiner records.old definer }
    requires within { index ≤ length (definitions_at records.old definer) }
    requires new_number { ¬ (IsValue records.old (record { definer = definer; number = number })) }
    ensures chains { chains_of records.new ≡ chains_of records.old }
    ensures linked { AreLinked (chains_of records.old) → AreLinked (chains_of records.new) }
    ensures keeps { KeepsTree records.old records.new }
    ensures forest { OnOk result (forest_in records.new ≡ on_definitions (forest_in records.old) (definer_of definer) (λ xs. insert xs index (definition (number, ty.place)))) }
    ensures value { OnOk result (IsValue records.new (record { definer = definer; number = number })) }
    ensures err { OnErr result (records.new ≡ records.old) }
{
    definitions_mut(records, definer).insert(alloc, index, number, ty)
}

/// Puts a result or argument with a new number and this type at the end, and tells its index. It has no name and no uses.
///
/// # Errors
/// Where the list had to grow and couldn't. Then nothing has changed.
pub fn push_definition<D: Dialects>(
    records: &mut Records<D>,
    alloc: Global,
    definer: Definer,
    number: u64,
    ty: TypeHandle,
) -> Result<usize, AllocError>
    requires live { IsDefiner records.old definer }
    requires new_number { ¬ (IsValue records.old (record { definer = definer; number = number })) }
    ensures index { IfOk result (λ index. index ≡ length (definitions_at records.old definer)) }
    ensures chains { chains_of records.new ≡ chains_of records.old }
    ensures linked { AreLinked (chains_of records.old) → AreLinked (chains_of records.new) }
    ensures keeps { KeepsTree records.old records.new }
    ensures forest { OnOk result (forest_in records.new ≡ on_definitions (forest_in records.old) (definer_of definer) (λ xs. xs ++ definition (number, ty.place) ∷ [])) }
    ensures value { OnOk result (IsValue records.new (record { definer = definer; number = number })) }
    ensures err { OnErr result (records.new ≡ records.old) }
{
    let definitions = definitions_mut(records, definer);
    let end = definitions.len();
    definitions.insert(alloc, end, number, ty)?;
    Ok(end)
}

/// Takes the result or argument at an index out, which has no uses. Those behind it move up.
pub fn remove_definition<D: Dialects>(records: &mut Records<D>, definer: Definer, index: usize)
    requires live { IsDefiner records.old definer }
    requires within { index < length (definitions_at records.old definer) }
    requires unused { (r : Definition) → slice_get (definitions_at records.old definer) index ≡ Some r → uses_at records.old (record { definer = definer; number = r.number }) ≡ [] }
    ensures chains { chains_of records.new ≡ chains_of records.old }
    ensures linked { AreLinked (chains_of records.old) → AreLinked (chains_of records.new) }
    ensures keeps { KeepsTree records.old records.new }
    ensures forest { forest_in records.new ≡ on_definitions (forest_in records.old) (definer_of definer) (λ xs. remove xs index) }
{
    definitions_mut(records, definer).remove(index);
}

/// Takes the last result or argument out, which has no uses.
pub fn pop_definition<D: Dialects>(records: &mut Records<D>, definer: Definer)
    requires live { IsDefiner records.old definer }
    requires some { 0 < length (definitions_at records.old definer) }
    requires unused { (r : Definition) → slice_get (definitions_at records.old definer) (length (definitions_at records.old definer) - 1) ≡ Some r → uses_at records.old (record { definer = definer; number = r.number }) ≡ [] }
    ensures chains { chains_of records.new ≡ chains_of records.old }
    ensures linked { AreLinked (chains_of records.old) → AreLinked (chains_of records.new) }
    ensures keeps { KeepsTree records.old records.new }
    ensures forest { forest_in records.new ≡ on_definitions (forest_in records.old) (definer_of definer) (λ xs. remove xs (length xs - 1)) }
{
    let definitions = definitions_mut(records, definer);
    let last = definitions.len() - 1;
    definitions.remove(last);
}

/// Gives a live value this type. Its number, its name and its uses stay.
pub fn set_type<D: Dialects>(records: &mut Records<D>, value: ValueIndex, ty: TypeHandle)
    requires { IsValue records.old value }
    ensures chains { chains_of records.new ≡ chains_of records.old }
    ensures linked { AreLinked (chains_of records.old) → AreLinked (chains_of records.new) }
    ensures keeps { KeepsTree records.old records.new }
    ensures forest { forest_in records.new ≡ with_value_type (forest_in records.old) (value_of value) ty.place }
{
    definitions_mut(records, value.definer).set_type(value.number, ty);
}

/// Gives a live value this name, or none. Its number, its type and its uses stay. It takes no memory.
pub fn set_name<D: Dialects>(
    records: &mut Records<D>,
    value: ValueIndex,
    name: Option<Box<Identifier>>,
)
    requires { IsValue records.old value }
    ensures chains { chains_of records.new ≡ chains_of records.old }
    ensures linked { AreLinked (chains_of records.old) → AreLinked (chains_of records.new) }
    ensures keeps { KeepsTree records.old records.new }
    ensures forest { forest_in records.new ≡ with_value_name (forest_in records.old) (value_of value) (option_map (λ b. b.value) name) }
{
    definitions_mut(records, value.definer).set_name(value.number, name);
}
