//! The definitions and the uses inside records, read by what they belong to, and the places of an operation, by number.

ghost use Rattle.std.specs.Prelude.{◌≡◌, ◌==◌, position};
ghost use Rattle.ir_core_records.specs.Lists.{HaveDistinctUses, IsDefinition};
ghost use Rattle.ir_core_records.specs.Table.{block_uses_at, definitions_at, uses_at, IsLiveBlock, IsValue};

use crate::kept_operand::KeptOperand;
use crate::numbered::{find_near, find_numbered};
use crate::record::{BlockIndex, Definer, Definition, UsePlace, Uses, ValueIndex};
use crate::records::Records;
use ir_base_dialects::{Dialects, Ptr};

/// The uses of a live block as a successor.
#[inline(always)]
pub fn block_uses<D: Dialects>(records: &Records<D>, block: BlockIndex) -> &Uses
    requires { IsLiveBlock records.now block }
    ensures { result.now ≡ block_uses_at records.now block }
{
    &records.blocks.at(Ptr::from_index(block.index)).uses
}

/// The result or the argument that a live value is.
#[inline(always)]
pub fn definition<D: Dialects>(records: &Records<D>, value: ValueIndex) -> &Definition
    requires { IsValue records.now value }
    ensures is { IsDefinition (definitions_at records.now value.definer) value.number result.now }
    ensures uses { result.now.uses ≡ uses_at records.now value }
{
    match value.definer {
        Definer::Op(op) => {
            let operation = records.ops.at(Ptr::from_index(op));
            operation.results.with_number(value.number)
        }
        Definer::Block(block) => {
            let block = records.blocks.at(Ptr::from_index(block));
            block.arguments.with_number(value.number)
        }
    }
}

/// The uses of a live value.
#[inline(always)]
pub fn uses<D: Dialects>(records: &Records<D>, value: ValueIndex) -> &Uses
    requires { IsValue records.now value }
    ensures { result.now ≡ uses_at records.now value }
{
    &definition(records, value).uses
}

/// The index of the operand with this number.
pub fn find_operand(operands: &[KeptOperand], number: u64) -> Option<usize>
    requires { HaveDistinctUses operands.now }
    ensures { result ≡ position (λ a. a.number == number) operands.now }
{
    find_numbered(operands, number)
}

/// The index of the operand with this number. It is first sought where it was near once, and the answer doesn't depend on that.
#[inline(always)]
pub fn find_operand_near(operands: &[KeptOperand], number: u64, near: usize) -> Option<usize>
    requires { HaveDistinctUses operands.now }
    ensures { result ≡ position (λ a. a.number == number) operands.now }
{
    find_near(operands, number, near)
}

/// The index of the successor with this number.
pub fn find_successor(successors: &[UsePlace<BlockIndex>], number: u64) -> Option<usize>
    requires { HaveDistinctUses successors.now }
    ensures { result ≡ position (λ a. a.number == number) successors.now }
{
    find_numbered(successors, number)
}

/// The index of the successor with this number. It is first sought where it was near once, and the answer doesn't depend on that.
#[inline(always)]
pub fn find_successor_near(
    successors: &[UsePlace<BlockIndex>],
    number: u64,
    near: usize,
) -> Option<usize>
    requires { HaveDistinctUses successors.now }
    ensures { result ≡ position (λ a. a.number == number) successors.now }
{
    find_near(successors, number, near)
}
