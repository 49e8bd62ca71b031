//! The operations of the dialect `Calc`, each under a type of its own.
//!
//! A wrapper is a handle and nothing more: it doesn't say that its operation is live, nor what that has. So each call here asks for a live operation, and what may be absent is an `Option`.

ghost use Rattle.std.specs.Prelude.{◌≡◌, ◌<◌, IfOk, IfSome, length};
ghost use Rattle.ir_base.specs.Model.Forest.{a_value, an_op};
ghost use Rattle.ir_base.specs.Model.Nesting.{IsLive, IsLiveNamed, operands_of};
ghost use Rattle.ir_core.specs.Records.Meaning.{value_of};
ghost use Rattle.example.specs.Calc.{number_of};
ghost use Rattle.ir_core.specs.Context.Calls.{StayLive};
ghost use Rattle.ir_core.specs.Context.State.{forest_of, types_of};

use crate::calc::Calc;
use crate::calc_attributes::Literal;
use crate::calc_types::{Number, Truth};
use ir_base::context::{CoreError, Ptr};
use ir_base::identifier::Identifier;
use ir_base::types::TypeHandle;
use ir_core::context::Context;
use ir_core::operation::{Operation, OperationPtrMut};
use ir_core::prelude::*;
use ir_core::value::Value;
use ir_view::op::Op;
use ir_view::prelude::*;

/// The operation `calc.constant`: its attribute `value` says which number its one result is.
#[derive(Drop)]
pub struct Constant {
    /// The operation.
    pub op: Ptr<Operation<Calc>>,
}

impl Op<Calc> for Constant {
    ghost KIND = { 0 };

    const KIND: u32 = 0;

    ghost op_of = { λ c. c.op.index };

    fn get_operation(&self) -> Ptr<Operation<Calc>> {
        self.op
    }

    fn wrap(op: &Ptr<Operation<Calc>>) -> Self {
        Constant { op: *op }
    }
}

/// The operation `calc.less`: whether its first operand is less than its second.
#[derive(Drop)]
pub struct Less {
    /// The operation.
    pub op: Ptr<Operation<Calc>>,
}

impl Op<Calc> for Less {
    ghost KIND = { 1 };

    const KIND: u32 = 1;

    ghost op_of = { λ l. l.op.index };

    fn get_operation(&self) -> Ptr<Operation<Calc>> {
        self.op
    }

    fn wrap(op: &Ptr<Operation<Calc>>) -> Self {
        Less { op: *op }
    }
}

impl Constant {
    /// Makes a constant of a known type, and answers its result, which is live.
    ///
    /// # Errors
    /// What `Operation::new` lacks, and `OutOfMemory` where there was no room for the attribute: then the operation stays without it.
    pub fn make(
        ctx: &mut Context<Calc>,
        number: TypeHandle,
        value: u64,
    ) -> Result<Value<Calc>, CoreError>
        requires { number.place < length (types_of ctx.old) }
        ensures live { IfOk result (λ v. IsLiveNamed (forest_of ctx.new) (a_value (value_of v.index))) }
        ensures stay_live { StayLive (forest_of ctx.old) (forest_of ctx.new) }
        ensures types_stay { types_of ctx.new ≡ types_of ctx.old }
    {
        let op = Operation::new(ctx, Self::KIND, &[number], &[], &[], 0)?;
        let result = op.deref(ctx).get_result(0);
        say(ctx, op, value)?;
        Ok(result)
    }

    /// The number, where the operation says it.
    pub fn value(&self, ctx: &Context<Calc>) -> Option<u64>
        requires { IsLive (forest_of ctx.now) (an_op self.now.op.index) }
        ensures { result ≡ number_of (forest_of ctx.now) self.now.op.index }
    {
        let attributes = self.op.deref(ctx).attributes();
        let number = attributes.get::<Literal>(&Identifier::new("value"))?;
        Some(number.value)
    }
}

impl Less {
    /// Makes the question whether one number is less than another, both of so many bits. Its answer is named `smaller`.
    ///
    /// # Errors
    /// What `Context::instantiate_key` and `Operation::new` lack, and `OutOfMemory` where there was no room for an attribute or the name. What was made until then stays.
    pub fn compare(
        ctx: &mut Context<Calc>,
        bits: u32,
        left: u64,
        right: u64,
    ) -> Result<Less, CoreError>
        ensures { IfOk result (λ less. IsLive (forest_of ctx.new) (an_op less.op.index)) }
    {
        let number = ctx.instantiate_key(Number { bits }.to_key())?;
        let truth = ctx.instantiate_key(Truth.to_key())?;
        let left = Constant::make(ctx, number, left)?;
        let right = Constant::make(ctx, number, right)?;
        let op = Operation::new(ctx, Self::KIND, &[truth], &[left, right], &[], 0)?;
        let name = Box::new(ctx.alloc(), Identifier::new("smaller"))?;
        op.deref(ctx).get_result(0).set_name(ctx, Some(name));
        Ok(Less { op })
    }

    /// The two numbers, where the operation compares two constants.
    pub fn sides(&self, ctx: &Context<Calc>) -> Option<(u64, u64)>
        requires { IsLive (forest_of ctx.now) (an_op self.now.op.index) }
        ensures { IfSome result (λ _. length (operands_of (forest_of ctx.now) self.now.op.index) ≡ 2) }
    {
        let record = self.op.deref(ctx);
        if record.get_num_operands() != 2 {
            return None;
        }
        let left = constant_in(ctx, record.get_operand(0))?;
        let right = constant_in(ctx, record.get_operand(1))?;
        Some((left, right))
    }

    /// The answer, where the operation has a result. It is live.
    pub fn answer(&self, ctx: &Context<Calc>) -> Option<Value<Calc>>
        requires { IsLive (forest_of ctx.now) (an_op self.now.op.index) }
        ensures { IfSome result (λ v. IsLiveNamed (forest_of ctx.now) (a_value (value_of v.index))) }
    {
        let record = self.op.deref(ctx);
        if record.get_num_results() == 0 {
            return None;
        }
        Some(record.get_result(0))
    }
}

// Writes down the number that a live operation stands for.
fn say(ctx: &mut Context<Calc>, op: Ptr<Operation<Calc>>, value: u64) -> Result<(), CoreError>
    requires { IsLive (forest_of ctx.old) (an_op op.index) }
    ensures stay_live { StayLive (forest_of ctx.old) (forest_of ctx.new) }
    ensures types_stay { types_of ctx.new ≡ types_of ctx.old }
{
    let written = OperationPtrMut::deref_mut(ctx, op);
    let number = Literal { value };
    written.attributes.set(Identifier::new("value"), number)
}

// The number that a value is, where it is the result of a constant.
fn constant_in(ctx: &Context<Calc>, value: Value<Calc>) -> Option<u64>
    requires { IsLiveNamed (forest_of ctx.now) (a_value (value_of value.index)) }
{
    let constant = value.defining_op()?.get_op::<Constant>(ctx)?;
    constant.value(ctx)
}
