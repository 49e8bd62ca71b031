//! What an edit of the lists makes of all records, as contracts of functions that do nothing.

ghost use Rattle.ir_core_nesting.specs.Edits.{OpListsTell, BlockListsTell};

use ir_base_dialects::Dialects;
use ir_base_dialects::list_laws::{edits_keep_fields, edits_keep_ids, lists_are_one};
use ir_core_records::{BasicBlock, Operation, Region};

// The new lists tell what an edit of the lists of operations leads to.
pub(crate) fn recall_operation_lists<D: Dialects>()
    ensures { OpListsTell D D.Attr D.TypeKey D.TypeBody D.Saved D.Aux D.Loc }
{
    lists_are_one::<Operation<D>, BasicBlock<D>>();
    lists_are_one::<BasicBlock<D>, Region>();
    edits_keep_fields::<Operation<D>, Operation<D>>();
    edits_keep_fields::<BasicBlock<D>, BasicBlock<D>>();
    edits_keep_ids::<Operation<D>>();
    edits_keep_ids::<BasicBlock<D>>();
}

// The new lists tell what an edit of the lists of blocks leads to.
pub(crate) fn recall_block_lists<D: Dialects>()
    ensures { BlockListsTell D D.Attr D.TypeKey D.TypeBody D.Saved D.Aux D.Loc }
{
    lists_are_one::<Operation<D>, BasicBlock<D>>();
    lists_are_one::<BasicBlock<D>, Region>();
    edits_keep_fields::<BasicBlock<D>, BasicBlock<D>>();
    edits_keep_fields::<Region, Region>();
    edits_keep_ids::<BasicBlock<D>>();
    edits_keep_ids::<Region>();
}
