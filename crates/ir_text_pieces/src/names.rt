//! The names of values and blocks, and where each may be used.
//!
//! A name is given in the innermost open region, and means its value in this region and in those inside it; a block's name in this region alone. What is named where it can't be is given a name of its own, which nothing defines.

ghost use Rattle.std.specs.Prelude.{◌≡◌, ◌≢◌, ◌+◌, ◌-◌, ◌<◌, ◌≤◌, ◌^◌, ◌%◌, ◌∷◌, [], ◌++◌, ◌↔◌, ℕ, length, nat_eq, take, Some, None, IsOk, IsSome, IfOk, IfErr, OnOk, OnErr, if◌then◌else◌};
ghost use Rattle.std.specs.Result.{OkIff};
ghost use Rattle.ir_text_pieces.specs.Names.{HasNumber, KeepsNames, NamesBlock, NamesValue, block_name, given_block, given_here, given_outside, given_value, innermost, is_innermost, is_open, name, name_for_block, name_for_value, next_in, next_outside_block, next_outside_value, open_regions, opened, openings, regions_taken, result_name, taken_in, value_name};
ghost use Rattle.ir_text_pieces.specs.declared.names.Name.{Name};

use crate::error::DescribeErr;
use std::alloc::Global;
use std::collections::HashMap;

/// What stands behind the `%` or `^` of a name, before its number.
#[derive(Clone, Copy, Debug, Drop, PartialEq, Eq)]
pub enum NameSort {
    /// `%arg`: an argument of the first block of a region.
    Argument,
    /// `%` alone: any other value; `^bb`: a block.
    Plain,
    /// `%outside` or `^outside`: what is defined in no region in which it may be named.
    Outside,
}

/// The name of a value, or of a block.
#[derive(Clone, Copy, Debug, Drop, PartialEq, Eq)]
pub struct Name {
    /// What stands before its number.
    pub sort: NameSort,
    /// Its number.
    pub number: u32,
    /// Which of several results under that name the value is.
    pub index: Option<u32>,
}

// An open region: which of all that were opened it is, from 1, and which numbers come next.
#[derive(Clone, Copy, Debug, Drop)]
struct Scope {
    opening: u64,
    next_argument: u32,
    next_value: u32,
}

// A name, and the region in which it was given: how many were open, and which of all it is.
#[derive(Clone, Copy, Debug, Drop)]
struct Given {
    name: Name,
    depth: usize,
    opening: u64,
}

/// The names of values and blocks in the regions that are open.
#[derive(Debug, Drop)]
pub struct Names {
    values: HashMap<u64, Given>,
    blocks: HashMap<u32, Given>,
    scopes: Vec<Scope>,
    openings: u64,
    outside_values: u32,
    outside_blocks: u32,
}

// The number after this one.
fn after(number: u32) -> Result<u32, DescribeErr>
    ensures number { OkIff result (number + 1 < 2 ^ 32) (number + 1) }
    ensures error { IfErr result (λ e. e ≡ DescribeErr.TooLong) }
{
    number.checked_add(1).ok_or(DescribeErr::TooLong)
}

// The number, where it has room.
fn short(number: usize) -> Result<u32, DescribeErr>
    ensures number { OkIff result (number < 2 ^ 32) number }
    ensures error { IfErr result (λ e. e ≡ DescribeErr.TooLong) }
{
    if number < 1 << 32 {
        Ok(number as u32)
    } else {
        Err(DescribeErr::TooLong)
    }
}

impl Scope {
    // The next number of this sort.
    fn next(self, sort: NameSort) -> u32
        ensures { result ≡ next_in sort self }
    {
        match sort {
            NameSort::Argument => self.next_argument,
            _ => self.next_value,
        }
    }

    // The region with the next number of this sort taken.
    fn with_taken(self, sort: NameSort) -> Result<Scope, DescribeErr>
        ensures taken { IfOk result (λ s. s ≡ taken_in sort self) }
        ensures opening { IfOk result (λ s. s.opening ≡ self.opening) }
        ensures long { IsOk result ↔ (next_in sort self + 1 < 2 ^ 32) }
        ensures error { IfErr result (λ e. e ≡ DescribeErr.TooLong) }
    {
        let following = after(self.next(sort))?;
        Ok(match sort {
            NameSort::Argument => Scope {
                next_argument: following,
                ..self
            },
            _ => Scope {
                next_value: following,
                ..self
            },
        })
    }
}

// Before all names.
const FIRST: Scope = Scope {
    opening: 0,
    next_argument: 0,
    next_value: 0,
};

impl Names {
    /// No names, outside all regions.
    pub fn new(alloc: Global) -> Self
        ensures regions { open_regions result ≡ [] }
        ensures openings { openings result ≡ 0 }
        ensures values { (v : ℕ) → given_value result v ≡ None }
        ensures blocks { (b : ℕ) → given_block result b ≡ None }
        ensures outside_values { next_outside_value result ≡ 0 }
        ensures outside_blocks { next_outside_block result ≡ 0 }
    {
        Names {
            values: HashMap::new(alloc),
            blocks: HashMap::new(alloc),
            scopes: Vec::new(alloc),
            openings: 0,
            outside_values: 0,
            outside_blocks: 0,
        }
    }

    // The innermost open region.
    fn innermost(&self) -> Scope
        ensures { result ≡ innermost self.now }
    {
        self.scopes.last().copied().unwrap_or(FIRST)
    }

    /// Opens a region in the innermost that is open. Its numbers go on from those of that one as they are now.
    ///
    /// # Errors
    /// `OutOfMemory`.
    pub fn open(&mut self) -> Result<(), DescribeErr>
        ensures regions { OnOk result (open_regions self.new ≡ open_regions self.old ++ opened self.old ∷ []) }
        ensures kept { OnErr result (open_regions self.new ≡ open_regions self.old) }
        ensures openings { openings self.new ≡ (openings self.old + 1) % 2 ^ 64 }
        // What has a name keeps it.
        ensures named { (v : ℕ) (x : Name) → value_name self.old v ≡ Some x → value_name self.new v ≡ Some x }
        ensures values { (v : ℕ) → given_value self.new v ≡ given_value self.old v }
        ensures blocks { (b : ℕ) → given_block self.new b ≡ given_block self.old b }
        ensures outside_values { next_outside_value self.new ≡ next_outside_value self.old }
        ensures outside_blocks { next_outside_block self.new ≡ next_outside_block self.old }
        ensures error { IfErr result (λ e. e ≡ DescribeErr.OutOfMemory) }
    {
        self.openings = self.openings.wrapping_add(1);
        let around = self.innermost();
        self.scopes.push(Scope {
            opening: self.openings,
            next_argument: around.next_argument,
            next_value: around.next_value,
        })?;
        Ok(())
    }

    /// Closes the innermost region.
    pub fn close(&mut self)
        ensures regions { open_regions self.new ≡ take (length (open_regions self.old) - 1) (open_regions self.old) }
        // What has a name behind it had that name before.
        ensures named { (v : ℕ) (x : Name) → value_name self.new v ≡ Some x → value_name self.old v ≡ Some x }
        ensures openings { openings self.new ≡ openings self.old }
        ensures values { (v : ℕ) → given_value self.new v ≡ given_value self.old v }
        ensures blocks { (b : ℕ) → given_block self.new b ≡ given_block self.old b }
        ensures outside_values { next_outside_value self.new ≡ next_outside_value self.old }
        ensures outside_blocks { next_outside_block self.new ≡ next_outside_block self.old }
    {
        self.scopes.pop();
    }

    // The name, as given in the innermost region.
    fn given(&self, name: Name) -> Given
        ensures { result ≡ given_here self.now name }
    {
        Given {
            name,
            depth: self.scopes.len(),
            opening: self.innermost().opening,
        }
    }

    // The next number of this sort in the innermost region.
    fn next_number(&mut self, sort: NameSort) -> Result<u32, DescribeErr>
        ensures number { IfOk result (λ k. k ≡ next_in sort (innermost self.old)) }
        ensures regions { OnOk result (open_regions self.new ≡ regions_taken sort self.old) }
        ensures kept { OnErr result (open_regions self.new ≡ open_regions self.old) }
        ensures depth { length (open_regions self.new) ≡ length (open_regions self.old) }
        ensures opening { (innermost self.new).opening ≡ (innermost self.old).opening }
        ensures long { IsOk result ↔ HasNumber sort self.old }
        ensures error { IfErr result (λ e. e ≡ DescribeErr.TooLong) }
        ensures values { self.new.values ≡ self.old.values }
        ensures blocks { self.new.blocks ≡ self.old.blocks }
        ensures openings { openings self.new ≡ openings self.old }
        ensures outside_values { next_outside_value self.new ≡ next_outside_value self.old }
        ensures outside_blocks { next_outside_block self.new ≡ next_outside_block self.old }
    {
        if self.scopes.is_empty() {
            return Err(DescribeErr::TooLong);
        }
        let scope = self.innermost();
        let at = self.scopes.len() - 1;
        self.scopes[at] = scope.with_taken(sort)?;
        Ok(scope.next(sort))
    }

    /// Gives a value the next name of this sort.
    ///
    /// # Errors
    /// `OutOfMemory`, or `TooLong` where no number is left.
    pub fn give_value(&mut self, value: u64, sort: NameSort) -> Result<(), DescribeErr>
        ensures given { OnOk result ((k : ℕ) → given_value self.new k ≡ (if nat_eq value k then Some (given_here self.old (name sort (next_in sort (innermost self.old)))) else given_value self.old k)) }
        ensures unkept { OnErr result ((k : ℕ) → given_value self.new k ≡ given_value self.old k) }
        ensures blocks { (b : ℕ) → given_block self.new b ≡ given_block self.old b }
        ensures regions { OnOk result (open_regions self.new ≡ regions_taken sort self.old) }
        // Without memory the number is taken all the same.
        ensures taken { IfErr result (λ e. e ≡ DescribeErr.OutOfMemory → open_regions self.new ≡ regions_taken sort self.old) }
        ensures untaken { IfErr result (λ e. e ≡ DescribeErr.TooLong → open_regions self.new ≡ open_regions self.old) }
        ensures long { IfErr result (λ e. e ≡ DescribeErr.TooLong → ¬ HasNumber sort self.old) }
        ensures refused { ¬ HasNumber sort self.old → result ≡ Err DescribeErr.TooLong }
        ensures named { OnOk result (value_name self.new value ≡ Some (name sort (next_in sort (innermost self.old)))) }
        // What else has a name keeps it, and what has none gets none.
        ensures others { (v : ℕ) → v ≢ value → value_name self.new v ≡ value_name self.old v }
        ensures openings { openings self.new ≡ openings self.old }
        ensures outside_values { next_outside_value self.new ≡ next_outside_value self.old }
        ensures outside_blocks { next_outside_block self.new ≡ next_outside_block self.old }
    {
        let number = self.next_number(sort)?;
        let name = Name {
            sort,
            number,
            index: None,
        };
        let given = self.given(name);
        self.values.insert(value, given)?;
        Ok(())
    }

    /// Takes the next number for the results of an operation, which are given it one by one.
    ///
    /// # Errors
    /// `TooLong` where no number is left.
    pub fn take_number(&mut self) -> Result<u32, DescribeErr>
        ensures number { IfOk result (λ k. k ≡ next_in NameSort.Plain (innermost self.old)) }
        ensures regions { OnOk result (open_regions self.new ≡ regions_taken NameSort.Plain self.old) }
        ensures kept { OnErr result (open_regions self.new ≡ open_regions self.old) }
        ensures long { IsOk result ↔ HasNumber NameSort.Plain self.old }
        ensures error { IfErr result (λ e. e ≡ DescribeErr.TooLong) }
        ensures values { (v : ℕ) → given_value self.new v ≡ given_value self.old v }
        ensures blocks { (b : ℕ) → given_block self.new b ≡ given_block self.old b }
        ensures openings { openings self.new ≡ openings self.old }
        ensures outside_values { next_outside_value self.new ≡ next_outside_value self.old }
        ensures outside_blocks { next_outside_block self.new ≡ next_outside_block self.old }
    {
        self.next_number(NameSort::Plain)
    }

    /// Gives a value the name of this number, as that of several results.
    ///
    /// # Errors
    /// `OutOfMemory`, or `TooLong` where the index has no room.
    pub fn give_result(&mut self, value: u64, number: u32, index: usize) -> Result<(), DescribeErr>
        ensures given { OnOk result ((k : ℕ) → given_value self.new k ≡ (if nat_eq value k then Some (given_here self.old (result_name number index)) else given_value self.old k)) }
        ensures unkept { OnErr result ((k : ℕ) → given_value self.new k ≡ given_value self.old k) }
        ensures blocks { (b : ℕ) → given_block self.new b ≡ given_block self.old b }
        ensures long { IfErr result (λ e. e ≡ DescribeErr.TooLong → 2 ^ 32 ≤ index) }
        ensures refused { 2 ^ 32 ≤ index → result ≡ Err DescribeErr.TooLong }
        ensures named { OnOk result (value_name self.new value ≡ Some (result_name number index)) }
        // What else has a name keeps it, and what has none gets none.
        ensures others { (v : ℕ) → v ≢ value → value_name self.new v ≡ value_name self.old v }
        ensures regions { open_regions self.new ≡ open_regions self.old }
        ensures openings { openings self.new ≡ openings self.old }
        ensures outside_values { next_outside_value self.new ≡ next_outside_value self.old }
        ensures outside_blocks { next_outside_block self.new ≡ next_outside_block self.old }
    {
        let name = Name {
            sort: NameSort::Plain,
            number,
            index: Some(short(index)?),
        };
        let given = self.given(name);
        self.values.insert(value, given)?;
        Ok(())
    }

    /// Gives a block its name, which is its place in the region.
    ///
    /// # Errors
    /// `OutOfMemory`, or `TooLong` where the place has no room.
    pub fn give_block(&mut self, block: u32, place: usize) -> Result<(), DescribeErr>
        ensures given { OnOk result ((k : ℕ) → given_block self.new k ≡ (if nat_eq block k then Some (given_here self.old (name NameSort.Plain place)) else given_block self.old k)) }
        ensures unkept { OnErr result ((k : ℕ) → given_block self.new k ≡ given_block self.old k) }
        ensures values { (v : ℕ) → given_value self.new v ≡ given_value self.old v }
        ensures long { IfErr result (λ e. e ≡ DescribeErr.TooLong → 2 ^ 32 ≤ place) }
        ensures refused { 2 ^ 32 ≤ place → result ≡ Err DescribeErr.TooLong }
        ensures named { OnOk result (block_name self.new block ≡ Some (name NameSort.Plain place)) }
        // What else has a name keeps it, and what has none gets none.
        ensures others { (b : ℕ) → b ≢ block → block_name self.new b ≡ block_name self.old b }
        ensures regions { open_regions self.new ≡ open_regions self.old }
        ensures openings { openings self.new ≡ openings self.old }
        ensures outside_values { next_outside_value self.new ≡ next_outside_value self.old }
        ensures outside_blocks { next_outside_block self.new ≡ next_outside_block self.old }
    {
        let name = Name {
            sort: NameSort::Plain,
            number: short(place)?,
            index: None,
        };
        let given = self.given(name);
        self.blocks.insert(block, given)?;
        Ok(())
    }

    // Whether the region in which a name was given is open.
    fn is_open(&self, given: Given) -> bool
        ensures { result ≡ is_open self.now given }
    {
        if given.depth == 0 {
            return true;
        }
        match self.scopes.get(given.depth - 1) {
            Some(scope) => scope.opening == given.opening,
            None => false,
        }
    }

    // Whether the region in which a name was given is the innermost that is open, or outside all.
    fn is_of_innermost(&self, given: Given) -> bool
        ensures { result ≡ is_innermost self.now given }
    {
        given.depth == 0 || (given.depth == self.scopes.len() && self.is_open(given))
    }

    /// The name of a value, where it is named in the innermost region.
    ///
    /// # Errors
    /// `OutOfMemory`, or `TooLong` where no number is left.
    pub fn value(&mut self, value: u64) -> Result<Name, DescribeErr>
        ensures name { IfOk result (λ x. x ≡ name_for_value self.old value) }
        ensures naming { OnOk result (NamesValue self.old value self.new) }
        ensures keeps { OnErr result (KeepsNames self.old self.new) }
        ensures stays { IsSome (value_name self.old value) → self.new ≡ self.old }
        ensures found { IsSome (value_name self.old value) → IsOk result }
        ensures given { OnOk result (value_name self.old value ≡ None → (k : ℕ) → given_value self.new k ≡ (if nat_eq value k then Some (given_outside (name_for_value self.old value)) else given_value self.old k)) }
        ensures unkept { OnErr result ((k : ℕ) → given_value self.new k ≡ given_value self.old k) }
        ensures counted { OnOk result (value_name self.old value ≡ None → next_outside_value self.new ≡ next_outside_value self.old + 1) }
        // Without memory the number is taken all the same.
        ensures taken { IfErr result (λ e. e ≡ DescribeErr.OutOfMemory → next_outside_value self.new ≡ next_outside_value self.old + 1) }
        ensures untaken { IfErr result (λ e. e ≡ DescribeErr.TooLong → next_outside_value self.new ≡ next_outside_value self.old) }
        ensures long { IfErr result (λ e. e ≡ DescribeErr.TooLong → next_outside_value self.old + 1 ≡ 2 ^ 32) }
        ensures refused { value_name self.old value ≡ None → next_outside_value self.old + 1 ≡ 2 ^ 32 → result ≡ Err DescribeErr.TooLong }
        ensures named { OnOk result (value_name self.new value ≡ Some (name_for_value self.old value)) }
        // What else has a name keeps it, and what has none gets none.
        ensures others { (k : ℕ) → k ≢ value → value_name self.new k ≡ value_name self.old k }
        ensures blocks { (b : ℕ) → given_block self.new b ≡ given_block self.old b }
        ensures outside_blocks { next_outside_block self.new ≡ next_outside_block self.old }
        ensures regions { open_regions self.new ≡ open_regions self.old }
        ensures openings { openings self.new ≡ openings self.old }
    {
        if let Some(given) = self.values.get(&value).copied() {
            if self.is_open(given) {
                return Ok(given.name);
            }
        }
        let name = Name {
            sort: NameSort::Outside,
            number: self.outside_values,
            index: None,
        };
        self.outside_values = after(self.outside_values)?;
        let given = Given {
            name,
            depth: 0,
            opening: 0,
        };
        self.values.insert(value, given)?;
        Ok(name)
    }

    /// The name of a block, where it is named in the innermost region.
    ///
    /// # Errors
    /// `OutOfMemory`, or `TooLong` where no number is left.
    pub fn block(&mut self, block: u32) -> Result<Name, DescribeErr>
        ensures name { IfOk result (λ x. x ≡ name_for_block self.old block) }
        ensures naming { OnOk result (NamesBlock self.old block self.new) }
        ensures keeps { OnErr result (KeepsNames self.old self.new) }
        ensures stays { IsSome (block_name self.old block) → self.new ≡ self.old }
        ensures found { IsSome (block_name self.old block) → IsOk result }
        ensures given { OnOk result (block_name self.old block ≡ None → (k : ℕ) → given_block self.new k ≡ (if nat_eq block k then Some (given_outside (name_for_block self.old block)) else given_block self.old k)) }
        ensures unkept { OnErr result ((k : ℕ) → given_block self.new k ≡ given_block self.old k) }
        ensures counted { OnOk result (block_name self.old block ≡ None → next_outside_block self.new ≡ next_outside_block self.old + 1) }
        // Without memory the number is taken all the same.
        ensures taken { IfErr result (λ e. e ≡ DescribeErr.OutOfMemory → next_outside_block self.new ≡ next_outside_block self.old + 1) }
        ensures untaken { IfErr result (λ e. e ≡ DescribeErr.TooLong → next_outside_block self.new ≡ next_outside_block self.old) }
        ensures long { IfErr result (λ e. e ≡ DescribeErr.TooLong → next_outside_block self.old + 1 ≡ 2 ^ 32) }
        ensures refused { block_name self.old block ≡ None → next_outside_block self.old + 1 ≡ 2 ^ 32 → result ≡ Err DescribeErr.TooLong }
        ensures named { OnOk result (block_name self.new block ≡ Some (name_for_block self.old block)) }
        // What else has a name keeps it, and what has none gets none.
        ensures others { (k : ℕ) → k ≢ block → block_name self.new k ≡ block_name self.old k }
        ensures values { (v : ℕ) → given_value self.new v ≡ given_value self.old v }
        ensures outside_values { next_outside_value self.new ≡ next_outside_value self.old }
        ensures regions { open_regions self.new ≡ open_regions self.old }
        ensures openings { openings self.new ≡ openings self.old }
    {
        if let Some(given) = self.blocks.get(&block).copied() {
            if self.is_of_innermost(given) {
                return Ok(given.name);
            }
        }
        let name = Name {
            sort: NameSort::Outside,
            number: self.outside_blocks,
            index: None,
        };
        self.outside_blocks = after(self.outside_blocks)?;
        let given = Given {
            name,
            depth: 0,
            opening: 0,
        };
        self.blocks.insert(block, given)?;
        Ok(name)
    }
}
