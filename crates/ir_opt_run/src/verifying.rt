//! Verification, and where what it finds stands in the text.

use crate::fault::{Fault, Finding};
use crate::generic_verifiers::GenericVerifiers;
use crate::reading::{Block, Module, Op};
use generic_dialect::Generic;
use ir_base_dialects::interfaces::TERMINATOR;
use ir_base_dialects::{Dialects, Identifier};
use ir_checked_core::basic_block;
use ir_core_queries::{BlockPlace, BlockPtr, Context, OperationPlace, OperationPtr};
use ir_verify::verify::{BasicBlockVerifyErr, VerifierErr, VerifyErr, verify_operation};

// The place of an operation of the text; none where it isn't one of the text.
fn place_of(module: &Module, op: Op) -> Option<u32> {
    for (other, at) in module.places.iter() {
        if *other == op {
            return Some(*at);
        }
    }
    None
}

// Whether a live block has that unique name.
fn has_name(ctx: &Context<Generic>, block: Block, name: &Identifier) -> bool {
    match basic_block::unique_name(block, ctx) {
        Ok(own) => own == *name,
        Err(_) => false,
    }
}

// The place of the operation that the block with that unique name stands in; the beginning of the text where no block of the text has it.
fn place_of_block(ctx: &Context<Generic>, module: &Module, name: &Identifier) -> u32 {
    for block in module.blocks.iter() {
        if has_name(ctx, *block, name) {
            return place_around(ctx, module, *block);
        }
    }
    0
}

// The place of the operation that a block stands in.
fn place_around(ctx: &Context<Generic>, module: &Module, block: Block) -> u32 {
    if !block.is_live(ctx) {
        return 0;
    }
    match block.get_parent_op(ctx) {
        Some(op) => place_of(module, op).unwrap_or(0),
        None => 0,
    }
}

// Whether an operation names a block, and isn't the terminator of its own.
fn is_no_terminator(ctx: &Context<Generic>, op: Op) -> bool {
    if !op.is_live(ctx) {
        return false;
    }
    let record = op.deref(ctx);
    if record.get_num_successors() == 0 {
        return false;
    }
    !Generic::op_impls(record.kind(), TERMINATOR) || op.get_next(ctx).is_some()
}

// The place of the first operation with a successor that isn't the terminator of its block.
fn place_of_successor(ctx: &Context<Generic>, module: &Module) -> u32 {
    for (op, at) in module.places.iter() {
        if is_no_terminator(ctx, *op) {
            return *at;
        }
    }
    0
}

// A fault of a block.
fn block_fault(ctx: &Context<Generic>, module: &Module, name: &Identifier, what: Finding) -> Fault {
    let at = place_of_block(ctx, module, name);
    Fault::Verifying { what, at }
}

// What is told of a fault of a block.
fn told_of_block(ctx: &Context<Generic>, module: &Module, error: &BasicBlockVerifyErr) -> Fault {
    match error {
        BasicBlockVerifyErr::MissingTerminator(name) => {
            block_fault(ctx, module, name, Finding::MissingTerminator)
        }
        BasicBlockVerifyErr::TerminatorNotLast(name) => {
            block_fault(ctx, module, name, Finding::TerminatorNotLast)
        }
        BasicBlockVerifyErr::NoParent(name) => block_fault(ctx, module, name, Finding::NoParent),
        BasicBlockVerifyErr::EntryHasPred(name) => {
            block_fault(ctx, module, name, Finding::EntryHasPred)
        }
    }
}

// What is told of what verification found.
fn told(ctx: &Context<Generic>, module: &Module, error: &VerifyErr) -> Fault {
    match error {
        VerifyErr::BasicBlockVerifyErr(error) => told_of_block(ctx, module, error),
        VerifyErr::DefUseVerifyErr(_) => Fault::Verifying {
            what: Finding::NotATerminator,
            at: place_of_successor(ctx, module),
        },
        VerifyErr::VerifierErr(VerifierErr { code }) => Fault::Verifying {
            what: Finding::Check { code: *code },
            at: 0,
        },
        VerifyErr::OutOfMemory => Fault::OutOfMemory,
    }
}

/// Verifies all that was read.
pub(crate) fn verify(ctx: &Context<Generic>, module: &Module) -> Result<(), Fault> {
    if !module.root.is_live(ctx) {
        return Ok(());
    }
    match verify_operation(module.root, ctx, &GenericVerifiers) {
        Ok(()) => Ok(()),
        Err(error) => Err(told(ctx, module, &error)),
    }
}
