//! The words of edits.

ghost use Rattle.std.specs.Prelude.{◌<◌};

use ir_run_edits::Edit;
use toy_dialect::Toy;

/// The words of all edits, those that may grow first.
pub const EDIT_WORDS: [&str; 39] = [
    "new-type",
    "new-op",
    "new-block",
    "add-region",
    "push-result",
    "insert-result",
    "push-argument",
    "insert-argument",
    "push-operand",
    "insert-operand",
    "replace-operand",
    "push-successor",
    "insert-successor",
    "replace-successor",
    "replace-all-uses",
    "retarget-all",
    "move-region",
    "remove-result",
    "remove-argument",
    "remove-operand",
    "remove-successor",
    "op-front",
    "op-back",
    "op-before",
    "op-after",
    "unlink-op",
    "block-front",
    "block-back",
    "block-before",
    "block-after",
    "unlink-block",
    "append-ops",
    "append-blocks",
    "drop-op-uses",
    "drop-block-uses",
    "drop-region-uses",
    "erase-op",
    "erase-block",
    "erase-region",
];

/// How many of the words are those of edits that may grow.
pub const GROWING: usize = 17;

// The place of an edit's word.
fn place_of(edit: &Edit<Toy>) -> usize
    ensures { result < 39 }
{
    match edit {
        Edit::NewType(_) => 0,
        Edit::NewOp { .. } => 1,
        Edit::NewBlock { .. } => 2,
        Edit::AddRegion { .. } => 3,
        Edit::PushResult { .. } => 4,
        Edit::InsertResult { .. } => 5,
        Edit::PushArgument { .. } => 6,
        Edit::InsertArgument { .. } => 7,
        Edit::PushOperand { .. } => 8,
        Edit::InsertOperand { .. } => 9,
        Edit::ReplaceOperand { .. } => 10,
        Edit::PushSuccessor { .. } => 11,
        Edit::InsertSuccessor { .. } => 12,
        Edit::ReplaceSuccessor { .. } => 13,
        Edit::ReplaceAllUses { .. } => 14,
        Edit::RetargetAll { .. } => 15,
        Edit::MoveRegion { .. } => 16,
        Edit::RemoveResult { .. } | Edit::RemoveArgument { .. } => place_of_still(edit),
        Edit::RemoveOperand { .. } | Edit::RemoveSuccessor { .. } => place_of_still(edit),
        Edit::OpFront { .. } | Edit::OpBack { .. } | Edit::OpBefore { .. } => place_of_still(edit),
        Edit::OpAfter { .. } | Edit::UnlinkOp { .. } | Edit::UnlinkBlock { .. } => place_of_still(
            edit,
        ),
        Edit::BlockFront { .. } | Edit::BlockBack { .. } => place_of_still(edit),
        Edit::BlockBefore { .. } | Edit::BlockAfter { .. } => place_of_still(edit),
        Edit::AppendOps { .. } | Edit::AppendBlocks { .. } => place_of_still(edit),
        Edit::DropOpUses { .. } | Edit::DropBlockUses { .. } => place_of_still(edit),
        Edit::DropRegionUses { .. } | Edit::EraseOp { .. } => place_of_still(edit),
        Edit::EraseBlock { .. } | Edit::EraseRegion { .. } => place_of_still(edit),
    }
}

// The place of the word of an edit that doesn't grow.
fn place_of_still(edit: &Edit<Toy>) -> usize
    ensures { result < 39 }
{
    match edit {
        Edit::RemoveResult { .. } => 17,
        Edit::RemoveArgument { .. } => 18,
        Edit::RemoveOperand { .. } => 19,
        Edit::RemoveSuccessor { .. } => 20,
        Edit::OpFront { .. } => 21,
        Edit::OpBack { .. } => 22,
        Edit::OpBefore { .. } => 23,
        Edit::OpAfter { .. } => 24,
        Edit::UnlinkOp { .. } => 25,
        Edit::BlockFront { .. } => 26,
        Edit::BlockBack { .. } => 27,
        Edit::BlockBefore { .. } => 28,
        Edit::BlockAfter { .. } => 29,
        Edit::UnlinkBlock { .. } => 30,
        Edit::AppendOps { .. } => 31,
        Edit::AppendBlocks { .. } => 32,
        Edit::DropOpUses { .. } => 33,
        Edit::DropBlockUses { .. } => 34,
        Edit::DropRegionUses { .. } => 35,
        Edit::EraseOp { .. } => 36,
        Edit::EraseBlock { .. } => 37,
        _ => 38,
    }
}

/// The word of an edit.
pub fn word_of(edit: &Edit<Toy>) -> &'static str {
    EDIT_WORDS[place_of(edit)]
}

/// Whether the word is that of an edit that may grow.
pub fn grows(edit: &Edit<Toy>) -> bool {
    place_of(edit) < GROWING
}
