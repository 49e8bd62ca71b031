//! The checks of the small dialect. Each has a code of its own: those of operations begin at 0, of attributes at 100, of types at 200; the check of number n has n in its tens; the slot of the operation, the number of the attribute or that of the type is added.

ghost use Rattle.std.specs.Prelude.{◌≡◌, IfErr, OnOk};
ghost use Rattle.ir_view_parts.specs.Wrapped.{operation_in};
ghost use Rattle.ir_verify.specs.Told.{MayFail, MayPass};
ghost use Rattle.testkit_lab.specs.Judge.{itself, judging, number_in, number_of};

use crate::small_dialect::{Small, SmallAttr, SmallType};
use ir_core_queries::Context;
use ir_verify::verify::{CheckErr, Verifiers};
use ir_view_parts::OpObj;

/// Answers one code where its check is run, or, at one check, that memory ran out. No check has the code 0.
#[derive(Clone, Copy, Debug, Drop)]
pub struct Judge {
    /// The code that is answered.
    pub asked: u32,
    /// The code of the check that answers that memory ran out.
    pub spent: u32,
}

impl Judge {
    // What the check with this code answers.
    fn judge(&self, code: u64) -> Result<(), CheckErr>
        ensures pass { OnOk result (MayPass (itself self.now.asked self.now.spent) code tt) }
        ensures fail { IfErr result (MayFail (itself self.now.asked self.now.spent) code tt) }
    {
        if code == u64::from(self.asked) {
            Err(CheckErr::Code(self.asked))
        } else if code == u64::from(self.spent) {
            Err(CheckErr::OutOfMemory)
        } else {
            Ok(())
        }
    }
}

// What is added for an operation.
fn slot_of(op: &OpObj<Small>) -> u32
    ensures { result ≡ (operation_in op.now).slot }
{
    op.get_operation().index().slot
}

// What is added for an attribute.
fn number_in(attr: &SmallAttr) -> u32
    ensures { result ≡ number_in attr.now }
{
    match attr {
        SmallAttr::Marked(marked) => marked.number,
        SmallAttr::Plain(plain) => plain.number,
    }
}

// What is added for a type: nothing for a pair.
fn number_of(key: &SmallType) -> u32
    ensures { result ≡ number_of key.now }
{
    match key {
        SmallType::Sized(sized) => sized.number,
        SmallType::Listed(listed) => listed.number,
        SmallType::Pair(_) => 0,
        SmallType::Bare(number) => *number,
    }
}

impl Verifiers<Small> for Judge {
    ghost handed_in = { λ j. judging j.asked j.spent };

    fn op_verifiers(&self, kind: u32) -> &[u32] {
        match kind {
            5 => &[2],
            4 => &[1],
            _ => &[],
        }
    }

    fn attr_verifiers(&self, kind: u32) -> &[u32] {
        match kind {
            0 => &[1, 2],
            _ => &[],
        }
    }

    fn type_verifiers(&self, kind: u32) -> &[u32] {
        match kind {
            0 => &[2, 1],
            1 => &[1],
            _ => &[],
        }
    }

    fn check_op_interface(
        &self,
        number: u32,
        op: &OpObj<Small>,
        _ctx: &Context<Small>,
    ) -> Result<(), CheckErr> {
        self.judge(u64::from(number) * 10 + u64::from(slot_of(op)))
    }

    fn check_attr_interface(
        &self,
        number: u32,
        attr: &SmallAttr,
        _ctx: &Context<Small>,
    ) -> Result<(), CheckErr> {
        self.judge(100 + u64::from(number) * 10 + u64::from(number_in(attr)))
    }

    fn check_type_interface(
        &self,
        number: u32,
        ty: &SmallType,
        _ctx: &Context<Small>,
    ) -> Result<(), CheckErr> {
        self.judge(200 + u64::from(number) * 10 + u64::from(number_of(ty)))
    }

    fn check_op(&self, op: &OpObj<Small>, _ctx: &Context<Small>) -> Result<(), CheckErr> {
        self.judge(u64::from(slot_of(op)))
    }

    fn check_attr(&self, attr: &SmallAttr, _ctx: &Context<Small>) -> Result<(), CheckErr> {
        self.judge(100 + u64::from(number_in(attr)))
    }

    fn check_type(&self, ty: &SmallType, _ctx: &Context<Small>) -> Result<(), CheckErr> {
        self.judge(200 + u64::from(number_of(ty)))
    }
}
