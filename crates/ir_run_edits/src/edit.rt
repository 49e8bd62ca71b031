//! The edits of a session.

use ir_base_dialects::{Dialects, Identifier};

/// One edit. It names types, operations, blocks, regions and values by their numbers in the session's tables, counted from 0.
#[derive(Drop)]
pub enum Edit<D: Dialects> {
    /// Stores the type with this key, or finds it, and puts it into the table of types. Answers its number there.
    NewType(D::TypeKey),
    /// Makes an unlinked operation. It goes into the table of operations, its results in order into that of values, and its regions in order into that of regions. Answers its number in the first.
    NewOp {
        /// The kind.
        kind: u32,
        /// The types of the results.
        types: Vec<usize>,
        /// The values that the operands name.
        operands: Vec<usize>,
        /// The blocks that the successors name.
        successors: Vec<usize>,
        /// How many regions it has.
        regions: usize,
    },
    /// Makes an unlinked block. It goes into the table of blocks, and its arguments in order into that of values. Answers its number in the first.
    NewBlock {
        /// The label.
        label: Option<Identifier>,
        /// The types of the arguments.
        types: Vec<usize>,
    },
    /// Makes an empty region, the last of an operation, and puts it into the table of regions. Answers its number there.
    AddRegion {
        /// The operation.
        op: usize,
    },
    /// Gives an operation another result, the last, of a type, and puts it into the table of values. Answers its number there.
    PushResult {
        /// The operation.
        op: usize,
        /// The type.
        ty: usize,
    },
    /// Gives an operation another result of a type, at a place up to their number, and puts it into the table of values; what stood there and behind it moves one place on. Answers its number in the table.
    InsertResult {
        /// The operation.
        op: usize,
        /// The place.
        at: usize,
        /// The type.
        ty: usize,
    },
    /// Takes the result at a place below their number out, which no operation names; those behind it move up.
    RemoveResult {
        /// The operation.
        op: usize,
        /// The place.
        at: usize,
    },
    /// Gives a block another argument, the last, of a type, and puts it into the table of values. Answers its number there.
    PushArgument {
        /// The block.
        block: usize,
        /// The type.
        ty: usize,
    },
    /// Gives a block another argument of a type, at a place up to their number, and puts it into the table of values; what stood there and behind it moves one place on. Answers its number in the table.
    InsertArgument {
        /// The block.
        block: usize,
        /// The place.
        at: usize,
        /// The type.
        ty: usize,
    },
    /// Takes the argument at a place below their number out, which no operation names; those behind it move up.
    RemoveArgument {
        /// The block.
        block: usize,
        /// The place.
        at: usize,
    },
    /// Gives an operation another operand, the last, which names a value.
    PushOperand {
        /// The operation.
        op: usize,
        /// The value.
        value: usize,
    },
    /// Gives an operation another operand that names a value, at a place up to their number; what stood there and behind it moves one place on.
    InsertOperand {
        /// The operation.
        op: usize,
        /// The place.
        at: usize,
        /// The value.
        value: usize,
    },
    /// Takes the operand at a place below their number out; those behind it move up.
    RemoveOperand {
        /// The operation.
        op: usize,
        /// The place.
        at: usize,
    },
    /// Puts an operand that names a value in the place of the one at a place below their number.
    ReplaceOperand {
        /// The operation.
        op: usize,
        /// The place.
        at: usize,
        /// The value.
        value: usize,
    },
    /// Gives an operation another successor, the last, which names a block.
    PushSuccessor {
        /// The operation.
        op: usize,
        /// The block.
        block: usize,
    },
    /// Gives an operation another successor that names a block, at a place up to their number; what stood there and behind it moves one place on.
    InsertSuccessor {
        /// The operation.
        op: usize,
        /// The place.
        at: usize,
        /// The block.
        block: usize,
    },
    /// Takes the successor at a place below their number out; those behind it move up.
    RemoveSuccessor {
        /// The operation.
        op: usize,
        /// The place.
        at: usize,
    },
    /// Puts a successor that names a block in the place of the one at a place below their number.
    ReplaceSuccessor {
        /// The operation.
        op: usize,
        /// The place.
        at: usize,
        /// The block.
        block: usize,
    },
    /// Lets each operand that names a value name another one, under its use number. Where both are one value, nothing changes.
    ReplaceAllUses {
        /// The value that is named.
        old: usize,
        /// The value that is named from then on.
        new: usize,
    },
    /// Lets each successor that names a block name another one, under its use number. Each operation that names the first stands in a block. Where both are one block, nothing changes.
    RetargetAll {
        /// The block that is named.
        old: usize,
        /// The block that is named from then on.
        new: usize,
    },
    /// Puts an unlinked operation at the front of a block, which isn't inside it.
    OpFront {
        /// The operation.
        op: usize,
        /// The block.
        block: usize,
    },
    /// Puts an unlinked operation at the back of a block, which isn't inside it.
    OpBack {
        /// The operation.
        op: usize,
        /// The block.
        block: usize,
    },
    /// Puts an unlinked operation right before one that is linked, whose block isn't inside it.
    OpBefore {
        /// The operation.
        op: usize,
        /// What it comes before.
        mark: usize,
    },
    /// Puts an unlinked operation right after one that is linked, whose block isn't inside it.
    OpAfter {
        /// The operation.
        op: usize,
        /// What it comes after.
        mark: usize,
    },
    /// Takes a linked operation out of its block.
    UnlinkOp {
        /// The operation.
        op: usize,
    },
    /// Puts an unlinked block at the front of a region, which isn't inside it.
    BlockFront {
        /// The block.
        block: usize,
        /// The region.
        region: usize,
    },
    /// Puts an unlinked block at the back of a region, which isn't inside it.
    BlockBack {
        /// The block.
        block: usize,
        /// The region.
        region: usize,
    },
    /// Puts an unlinked block right before one that is linked, whose region isn't inside it.
    BlockBefore {
        /// The block.
        block: usize,
        /// What it comes before.
        mark: usize,
    },
    /// Puts an unlinked block right after one that is linked, whose region isn't inside it.
    BlockAfter {
        /// The block.
        block: usize,
        /// What it comes after.
        mark: usize,
    },
    /// Takes a linked block out of its region.
    UnlinkBlock {
        /// The block.
        block: usize,
    },
    /// Moves all operations of a block behind those of another one, of which neither is inside an operation of the first.
    AppendOps {
        /// The block that gets them.
        donee: usize,
        /// The block that has them.
        donor: usize,
    },
    /// Moves all blocks of a region behind those of another one, of which neither is inside a block of the first.
    AppendBlocks {
        /// The region that gets them.
        donee: usize,
        /// The region that has them.
        donor: usize,
    },
    /// Moves a region to the back of the regions of an operation that isn't inside it. One that is there already stays where it is.
    MoveRegion {
        /// The region.
        region: usize,
        /// The operation.
        op: usize,
    },
    /// Takes the operands and successors of all operations inside an operation out, also its own.
    DropOpUses {
        /// The operation.
        op: usize,
    },
    /// Takes the operands and successors of all operations inside a block out.
    DropBlockUses {
        /// The block.
        block: usize,
    },
    /// Takes the operands and successors of all operations inside a region out.
    DropRegionUses {
        /// The region.
        region: usize,
    },
    /// Erases an operation with all that stands inside it, where no operation outside names what is defined inside.
    EraseOp {
        /// The operation.
        op: usize,
    },
    /// Erases a block with all that stands inside it, where no operation outside names what is defined inside.
    EraseBlock {
        /// The block.
        block: usize,
    },
    /// Erases the region at a place below their number of an operation with all that stands inside it, where no operation outside names what is defined inside; those behind it move up.
    EraseRegion {
        /// The operation.
        op: usize,
        /// The place.
        at: usize,
    },
}
