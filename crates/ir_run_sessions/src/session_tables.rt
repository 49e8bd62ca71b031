//! The tables of a session: what was made in it, in order, so that edits can name it by numbers.

ghost use Rattle.std.specs.Prelude.{◌≡◌, ◌+◌, ◌≤◌, ◌++◌, [], length, map, OnOk, vec_len, vec_capacity};
ghost use Rattle.ir_model.specs.Forest.{of_block, of_op};
ghost use Rattle.ir_model.specs.Edits.{numbered};
ghost use Rattle.ir_core_records.specs.Meaning.{block_index, block_record, op_index, op_record, value_of};
ghost use Rattle.ir_core_queries.specs.Calls.{counts_of};
ghost use Rattle.ir_run_sessions.specs.SessionTables.{entries_of, with_block, with_op, with_region, with_type_entered, with_value, HasPlace};

use ir_base_dialects::{Dialects, Ptr, TypeHandle};
use ir_core_queries::{BasicBlock, Needs, Operation, Region, Value};
use std::alloc::{AllocError, Global};

/// The types, operations, blocks, regions and values that edits made. Nothing is ever taken out.
#[derive(Drop)]
pub struct Tables<D: Dialects> {
    /// The types.
    pub types: Vec<TypeHandle>,
    /// The operations.
    pub ops: Vec<Ptr<Operation<D>>>,
    /// The blocks.
    pub blocks: Vec<Ptr<BasicBlock<D>>>,
    /// The regions.
    pub regions: Vec<Ptr<Region>>,
    /// The results of operations and the arguments of blocks.
    pub values: Vec<Value<D>>,
}

impl<D: Dialects> Tables<D> {
    /// Tables without entries. They take no memory.
    pub fn new(alloc: Global) -> Self
        ensures { entries_of result ≡ record { types = []; ops = []; blocks = []; regions = []; values = [] } }
    {
        Tables {
            types: Vec::new(alloc),
            ops: Vec::new(alloc),
            blocks: Vec::new(alloc),
            regions: Vec::new(alloc),
            values: Vec::new(alloc),
        }
    }

    /// Makes place for a type.
    ///
    /// # Errors
    /// Where a growth was refused.
    pub fn reserve_type(&mut self) -> Result<(), AllocError>
        ensures same { entries_of self.new ≡ entries_of self.old }
        ensures place { OnOk result (vec_len self.new.types + 1 ≤ vec_capacity self.new.types) }
    {
        self.types.reserve(1)
    }

    /// Makes place for the operations, blocks, regions and values that are needed.
    ///
    /// # Errors
    /// Where a growth was refused.
    pub fn reserve(&mut self, needs: Needs) -> Result<(), AllocError>
        ensures same { entries_of self.new ≡ entries_of self.old }
        ensures place { OnOk result (HasPlace self.new (counts_of needs)) }
    {
        self.ops.reserve(needs.ops)?;
        self.blocks.reserve(needs.blocks)?;
        self.regions.reserve(needs.regions)?;
        self.values.reserve(needs.values)
    }

    /// Puts the type behind the others.
    pub fn enter_type(&mut self, ty: TypeHandle)
        requires { vec_len self.old.types + 1 ≤ vec_capacity self.old.types }
        ensures { entries_of self.new ≡ with_type_entered (entries_of self.old) ty.place }
    {
        self.types.push_reserved(ty);
    }

    /// Puts the operation, its regions and its results behind the others.
    pub fn enter_op(&mut self, op: &Operation<D>)
        requires ops { vec_len self.old.ops + 1 ≤ vec_capacity self.old.ops }
        requires regions { vec_len self.old.regions + length (op_record op.now).regions ≤ vec_capacity self.old.regions }
        requires values { vec_len self.old.values + length (op_record op.now).results ≤ vec_capacity self.old.values }
        ensures { entries_of self.new ≡ with_op (entries_of self.old) op.now }
    {
        self.ops.push_reserved(Ptr::from_index(op.index));
        enter_regions(&mut self.regions, op);
        enter_results(&mut self.values, op);
    }

    /// Puts the block and its arguments behind the others.
    pub fn enter_block(&mut self, block: &BasicBlock<D>)
        requires blocks { vec_len self.old.blocks + 1 ≤ vec_capacity self.old.blocks }
        requires values { vec_len self.old.values + length (block_record [] block.now).arguments ≤ vec_capacity self.old.values }
        ensures { entries_of self.new ≡ with_block (entries_of self.old) block.now }
    {
        self.blocks.push_reserved(Ptr::from_index(block.index));
        enter_arguments(&mut self.values, block);
    }

    /// Puts the region behind the others.
    pub fn enter_region(&mut self, region: Ptr<Region>)
        requires { vec_len self.old.regions + 1 ≤ vec_capacity self.old.regions }
        ensures { entries_of self.new ≡ with_region (entries_of self.old) region.index }
    {
        self.regions.push_reserved(region);
    }

    /// Puts the value behind the others.
    pub fn enter_value(&mut self, value: Value<D>)
        requires { vec_len self.old.values + 1 ≤ vec_capacity self.old.values }
        ensures { entries_of self.new ≡ with_value (entries_of self.old) (value_of value.index) }
    {
        self.values.push_reserved(value);
    }
}

// Puts the operation's regions, in order, behind the others.
fn enter_regions<D: Dialects>(table: &mut Vec<Ptr<Region>>, op: &Operation<D>)
    requires { vec_len table.old + length (op_record op.now).regions ≤ vec_capacity table.old }
    ensures { map (λ p. p.index) table.new.items ≡ map (λ p. p.index) table.old.items ++ (op_record op.now).regions }
{
    for index in 0..op.num_regions() {
        table.push_reserved(op.get_region(index));
    }
}

// Puts the operation's results, in order, behind the others.
fn enter_results<D: Dialects>(table: &mut Vec<Value<D>>, op: &Operation<D>)
    requires { vec_len table.old + length (op_record op.now).results ≤ vec_capacity table.old }
    ensures { map (λ v. value_of v.index) table.new.items ≡ map (λ v. value_of v.index) table.old.items ++ numbered (of_op (op_index op.now)) (map (λ r. r.number) (op_record op.now).results) }
{
    for index in 0..op.get_num_results() {
        table.push_reserved(op.get_result(index));
    }
}

// Puts the block's arguments, in order, behind the others.
fn enter_arguments<D: Dialects>(table: &mut Vec<Value<D>>, block: &BasicBlock<D>)
    requires { vec_len table.old + length (block_record [] block.now).arguments ≤ vec_capacity table.old }
    ensures { map (λ v. value_of v.index) table.new.items ≡ map (λ v. value_of v.index) table.old.items ++ numbered (of_block (block_index block.now)) (map (λ r. r.number) (block_record [] block.now).arguments) }
{
    for index in 0..block.get_num_arguments() {
        table.push_reserved(block.get_argument(index));
    }
}
