//! The results of an operation, or the arguments of a block, which are found by their numbers. No two have one number.

ghost use Rattle.std.specs.Prelude.{◌≡◌, ◌+◌, ◌<◌, ◌≤◌, ◌^◌, ◌==◌, [], length, map, insert, remove, is_ok, if◌then◌else◌, IfOk, Some, slice_get, position};
ghost use Rattle.std.specs.Borrow.{sem};
ghost use Rattle.ir_core_records.specs.Lists.{uses_with, HasNumber, HaveDistinctNumbers, IsDefinition, definitions_from};
ghost use Rattle.ir_core_records.specs.DefinitionEdits.{unused_definition, rewritten, with_name, typed_as};
ghost use Rattle.ir_core_records.specs.Lends.{lends_definition_uses};

use crate::numbered::find_numbered;
use crate::one_or_more::OneOrMore;
use crate::record::{Definition, Uses};
use ir_base_dialects::{Identifier, PlainSeq, TypeHandle};
use std::alloc::{AllocError, Global};
use std::marker::Model;

/// Definitions in order, no two with one number. One of them takes no allocation.
#[derive(Drop)]
pub struct Definitions {
    items: OneOrMore<Definition>,
}

impl Model for Definitions {
    ghost use Rattle.std.specs.Prelude.{List};
    ghost use Rattle.ir_core_records.specs.declared.record.Definition.{Definition};
    ghost use Rattle.ir_core_records.specs.Lists.{HaveDistinctNumbers};

    ghost Value = { List Definition };

    ghost view = { λ s. s.items };

    ghost invariant = { λ s. HaveDistinctNumbers s.items };
}

// A definition with this number and type, and neither name nor uses.
#[inline(always)]
fn new_definition(alloc: Global, number: u64, ty: TypeHandle) -> Definition
    ensures { result ≡ unused_definition number ty.place }
{
    Definition {
        number,
        ty: ty.place,
        name: None,
        uses: PlainSeq::new(alloc),
    }
}

// Unused and unnamed definitions of these types, numbered from `first` on.
#[inline(always)]
fn new_definitions(
    alloc: Global,
    first: u64,
    types: &[TypeHandle],
) -> Result<OneOrMore<Definition>, AllocError>
    requires { first + length types.now < 2 ^ 64 }
    ensures { IfOk result (λ definitions. definitions ≡ definitions_from first types.now) }
{
    if let [ty] = types {
        return Ok(OneOrMore::one(alloc, new_definition(alloc, first, *ty)));
    }
    let mut definitions = Vec::with_capacity(alloc, types.len())?;
    let mut number = first;
    for ty in types {
        definitions.push(new_definition(alloc, number, *ty))?;
        number += 1;
    }
    Ok(OneOrMore::of(alloc, definitions))
}

// Gives a definition this name, or none.
fn put_name(definition: &mut Definition, name: Option<Box<Identifier>>)
    ensures { definition.new ≡ with_name name definition.old }
{
    definition.name = name;
}

impl Definitions {
    /// No definitions.
    pub fn new(alloc: Global) -> Self
        ensures { result ≡ [] }
    {
        Definitions {
            items: OneOrMore::new(alloc),
        }
    }

    /// Unused and unnamed definitions of these types, numbered from `first` on.
    ///
    /// # Errors
    /// Where there is no memory for them.
    #[inline(always)]
    pub fn of_types(
        alloc: Global,
        first: u64,
        types: &[TypeHandle],
    ) -> Result<Definitions, AllocError>
        requires { first + length types.now < 2 ^ 64 }
        ensures { IfOk result (λ definitions. definitions ≡ definitions_from first types.now) }
    {
        let items = new_definitions(alloc, first, types)?;
        Ok(Definitions { items })
    }

    /// How many there are.
    #[inline(always)]
    pub fn len(&self) -> usize
        ensures { result ≡ length self.now }
    {
        self.items.len()
    }

    /// The definition at `index`.
    #[inline(always)]
    pub fn at(&self, index: usize) -> &Definition
        requires { index < length self.now }
        ensures { slice_get self.now index ≡ Some result.now }
    {
        self.items.at(index)
    }

    /// The definitions as a slice.
    #[inline(always)]
    pub fn as_slice(&self) -> &[Definition]
        ensures { result.now ≡ self.now }
    {
        self.items.as_slice()
    }

    /// The place of the definition with this number.
    #[inline(always)]
    pub fn find(&self, number: u64) -> Option<usize>
        ensures { result ≡ position (λ r. r.number == number) self.now }
    {
        find_numbered(self.items.as_slice(), number)
    }

    /// The definition with this number.
    #[inline(always)]
    pub fn with_number(&self, number: u64) -> &Definition
        requires { HasNumber self.now number }
        ensures is { IsDefinition self.now number result.now }
        ensures uses { result.now.uses ≡ uses_with self.now number }
    {
        match self.find(number) {
            Some(index) => self.items.at(index),
            None => unreachable!(),
        }
    }

    /// The uses of the definition with this number, for writing.
    #[inline(always)]
    pub fn uses_mut(&mut self, number: u64) -> &mut Uses
        requires { HasNumber self.old number }
        ensures* writes_back { sem 𝓛 (lends_definition_uses self.entry number result) }
        ensures value { result.now ≡ uses_with self.old number }
    {
        match self.find(number) {
            Some(index) => &mut self.items.at_mut(index).uses,
            None => unreachable!(),
        }
    }

    /// Puts an unused and unnamed definition with this number and type at `index`, before the one that stands there.
    ///
    /// # Errors
    /// Where the list had to grow and couldn't. Then the definitions are as before.
    #[inline(always)]
    pub fn insert(
        &mut self,
        alloc: Global,
        index: usize,
        number: u64,
        ty: TypeHandle,
    ) -> Result<(), AllocError>
        requires within { index ≤ length self.old }
        requires new_number { ¬ (HasNumber self.old number) }
        ensures { self.new ≡ (if is_ok result then insert self.old index (unused_definition number ty.place) else self.old) }
    {
        self.items.insert(index, new_definition(alloc, number, ty))
    }

    /// Takes the definition at `index` out. Those behind it move up.
    pub fn remove(&mut self, index: usize) -> Definition
        requires { index < length self.old }
        ensures value { slice_get self.old index ≡ Some result }
        ensures items { self.new ≡ remove self.old index }
        ensures distinct { HaveDistinctNumbers self.old }
    {
        self.items.remove(index)
    }

    /// All definitions, with the memory that they own. None is left.
    pub fn take(&mut self) -> Self
        ensures value { result ≡ self.old }
        ensures left { self.new ≡ [] }
    {
        Definitions {
            items: self.items.take(),
        }
    }

    /// Gives the definition with this number this type.
    pub fn set_type(&mut self, number: u64, ty: TypeHandle)
        requires { HasNumber self.old number }
        ensures { self.new ≡ map (rewritten number (typed_as ty.place)) self.old }
    {
        match self.find(number) {
            Some(index) => self.items.at_mut(index).ty = ty.place,
            None => unreachable!(),
        }
    }

    /// Gives the definition with this number this name, or none.
    pub fn set_name(&mut self, number: u64, name: Option<Box<Identifier>>)
        requires { HasNumber self.old number }
        ensures { self.new ≡ map (rewritten number (with_name name)) self.old }
    {
        match self.find(number) {
            Some(index) => put_name(self.items.at_mut(index), name),
            None => unreachable!(),
        }
    }
}
