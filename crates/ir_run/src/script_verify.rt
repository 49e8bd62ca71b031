//! The answer to a line that verifies an operation.

use crate::toy_verifiers::ToyVerifiers;
use ir_base_dialects::Refused;
use ir_run_sessions::{OperationPtr, Session};
use ir_verify::verify::{
    BasicBlockVerifyErr, DefUseVerifyErr, VerifierErr, VerifyErr, verify_operation,
};
use std::alloc::AllocError;
use toy_dialect::Toy;
use toy_script_text::refusal_line;

/// Verifies the operation with this number by Toy's checks, and writes what is found as a line. Where no live operation has the number, that is refused.
pub(crate) fn write_found(
    text: &mut String,
    session: &Session<Toy>,
    number: usize,
) -> Result<(), AllocError> {
    let ctx = session.ctx();
    let Some(op) = session.op(number) else {
        return text.push_str(refusal_line(Refused::Condition));
    };
    if !op.is_live(ctx) {
        return text.push_str(refusal_line(Refused::Condition));
    }
    match verify_operation(op, ctx, &ToyVerifiers) {
        Ok(()) => text.push_str("ok\n"),
        Err(fault) => write_fault(text, &fault),
    }
}

// Writes a fault as a line.
fn write_fault(text: &mut String, fault: &VerifyErr) -> Result<(), AllocError> {
    match fault {
        VerifyErr::BasicBlockVerifyErr(fault) => write_block_fault(text, fault),
        VerifyErr::DefUseVerifyErr(DefUseVerifyErr::OperandNotUseOfDef) => {
            text.push_str("fault OperandNotUseOfDef\n")
        }
        VerifyErr::VerifierErr(VerifierErr { code }) => {
            writeln!(text, "fault Verifier {code}")?;
            Ok(())
        }
        VerifyErr::OutOfMemory => text.push_str(refusal_line(Refused::Memory)),
    }
}

// Writes the fault of a block, with the block's name, as a line.
fn write_block_fault(text: &mut String, fault: &BasicBlockVerifyErr) -> Result<(), AllocError> {
    match fault {
        BasicBlockVerifyErr::MissingTerminator(name) => {
            writeln!(text, "fault MissingTerminator {name}")?;
        }
        BasicBlockVerifyErr::TerminatorNotLast(name) => {
            writeln!(text, "fault TerminatorNotLast {name}")?;
        }
        BasicBlockVerifyErr::NoParent(name) => writeln!(text, "fault NoParent {name}")?,
        BasicBlockVerifyErr::EntryHasPred(name) => writeln!(text, "fault EntryHasPred {name}")?,
    }
    Ok(())
}
