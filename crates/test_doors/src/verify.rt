//! `ir_verify::verify`.

use ir_base::context::Ptr;
use ir_base::prelude::*;
use ir_base::types::TypeHandle;
use ir_core::basic_block::BasicBlock;
use ir_core::operation::Operation;
use ir_core::region::Region;
use ir_core::value::Value;
use ir_verify::verify::{
    BasicBlockVerifyErr, CheckErr, DefUseVerifyErr, OwnChecks, VerifierErr, Verifiers, Verify,
    VerifyErr, verify_attr, verify_op, verify_operation, verify_type,
};
use ir_view::prelude::*;
use ir_view::types::{TypeInterfaceHandle, TypedHandle};

/// What is verified.
pub fn verified<
    D: Dialects,
    V: Verifiers<D>,
    C: OwnChecks<D>,
    T: IrType<D>,
    I: TypeInterfaceMarker,
>() {
    let _ = <Ptr<Operation<D>> as Verify<D>>::verify::<V>;
    let _ = <Ptr<BasicBlock<D>> as Verify<D>>::verify::<V>;
    let _ = <Ptr<Region> as Verify<D>>::verify::<V>;
    let _ = <Value<D> as Verify<D>>::verify::<V>;
    let _ = <TypeHandle as Verify<D>>::verify::<V>;
    let _ = <TypedHandle<T, D> as Verify<D>>::verify::<V>;
    let _ = <TypeInterfaceHandle<I, D> as Verify<D>>::verify::<V>;
    let _ = verify_op::<D, V>;
    let _ = verify_operation::<D, V>;
    let _ = verify_attr::<D, V>;
    let _ = verify_type::<D, V>;
    let _ = verify_type::<D, C>;
}

/// What is told, and what a check answers.
pub fn told(code: VerifierErr) {
    let VerifierErr { code: _ } = code;
    let _ = BasicBlockVerifyErr::MissingTerminator;
    let _ = BasicBlockVerifyErr::TerminatorNotLast;
    let _ = BasicBlockVerifyErr::NoParent;
    let _ = BasicBlockVerifyErr::EntryHasPred;
    let _ = DefUseVerifyErr::OperandNotUseOfDef;
    let _ = VerifyErr::BasicBlockVerifyErr;
    let _ = VerifyErr::DefUseVerifyErr;
    let _ = VerifyErr::VerifierErr;
    let _ = VerifyErr::OutOfMemory;
    let _ = CheckErr::Code;
    let _ = CheckErr::OutOfMemory;
}
