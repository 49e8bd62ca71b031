//! What a checked call answers, as text.
ghost use Rattle.std.specs.Iterator.{IsFinite};

use ir_base_dialects::{Identifier, OpId, Ptr, TypeHandle};
use ir_checked_core::CheckedErr;
use ir_verify::verify::VerifyErr;
use ir_view_parts::{BasicBlock, Entity, OpObj, Operation, Region, Use, Value};
use std::mem::replace;
use testkit_lab::{Lab, Named, Placed, Reply, tell_refused};
use toy_dialect::Toy;

/// What a checked call may answer.
pub(crate) trait Told: Drop {
    /// Writes it.
    fn write(&self, text: &mut Reply, lab: &Lab);
}

impl Told for () {
    fn write(&self, text: &mut Reply, _lab: &Lab) {
        text.say("done");
    }
}

impl Told for bool {
    fn write(&self, text: &mut Reply, _lab: &Lab) {
        text.show("", self);
    }
}

impl Told for usize {
    fn write(&self, text: &mut Reply, _lab: &Lab) {
        text.show("", self);
    }
}

impl Told for Identifier {
    fn write(&self, text: &mut Reply, _lab: &Lab) {
        text.show("", self);
    }
}

impl Told for OpId {
    fn write(&self, text: &mut Reply, _lab: &Lab) {
        text.show("", self);
    }
}

impl Told for TypeHandle {
    fn write(&self, text: &mut Reply, lab: &Lab) {
        text.show("", (*self).name(lab));
    }
}

impl Told for Ptr<Operation<Toy>> {
    fn write(&self, text: &mut Reply, lab: &Lab) {
        text.show("", (*self).name(lab));
    }
}

impl Told for Ptr<BasicBlock<Toy>> {
    fn write(&self, text: &mut Reply, lab: &Lab) {
        text.show("", (*self).name(lab));
    }
}

impl Told for Ptr<Region> {
    fn write(&self, text: &mut Reply, lab: &Lab) {
        text.show("", (*self).name(lab));
    }
}

impl Told for Value<Toy> {
    fn write(&self, text: &mut Reply, lab: &Lab) {
        text.show("", (*self).name(lab));
    }
}

impl Told for Use<Value<Toy>> {
    fn write(&self, text: &mut Reply, lab: &Lab) {
        text.show("", (*self).place(lab));
    }
}

impl Told for Use<Ptr<BasicBlock<Toy>>> {
    fn write(&self, text: &mut Reply, lab: &Lab) {
        text.show("", (*self).place(lab));
    }
}

impl Told for Entity<Toy> {
    fn write(&self, text: &mut Reply, lab: &Lab) {
        match *self {
            Entity::Op(op) => op.write(text, lab),
            Entity::Block(block) => block.write(text, lab),
            Entity::Region(region) => region.write(text, lab),
        }
    }
}

impl Told for OpObj<Toy> {
    fn write(&self, text: &mut Reply, lab: &Lab) {
        text.show("", (*self).get_operation().name(lab));
        text.show(" of kind ", (*self).kind());
    }
}

impl Told for Result<(), VerifyErr> {
    fn write(&self, text: &mut Reply, _lab: &Lab) {
        match self {
            Ok(()) => text.say("ok"),
            Err(fault) => text.show("", fault),
        }
    }
}

impl<T: Told> Told for Option<T> {
    fn write(&self, text: &mut Reply, lab: &Lab) {
        match self {
            Some(item) => item.write(text, lab),
            None => text.say("-"),
        }
    }
}

impl<T: Told> Told for Vec<T> {
    fn write(&self, text: &mut Reply, lab: &Lab) {
        text.say("all");
        for item in self {
            text.say(" ");
            item.write(text, lab);
        }
    }
}

/// Writes what a call answered.
pub(crate) fn tell<T: Told>(text: &mut Reply, lab: &Lab, answer: Result<T, CheckedErr>) {
    match answer {
        Ok(told) => told.write(text, lab),
        Err(error) => tell_error(text, error),
    }
}

/// Writes why a call wasn't made: the text of the error, or what it was refused for, as in other answers of the lab.
pub(crate) fn tell_error(text: &mut Reply, error: CheckedErr) {
    match error {
        CheckedErr::Unmet(_) => text.show("", error),
        CheckedErr::Core(_) => tell_refused(text, error),
    }
}

/// Writes what a call answered behind the lab's text.
pub(crate) fn tell_edit<T: Told>(lab: &mut Lab, answer: Result<T, CheckedErr>) {
    let nothing = Reply::new(lab.alloc());
    let mut text = replace(&mut lab.text, nothing);
    tell(&mut text, lab, answer);
    lab.text = text;
}

/// Writes a walk.
pub(crate) fn tell_walk<T: Told, W: Iterator<Item = T>>(text: &mut Reply, lab: &Lab, walk: W)
    requires ready { W.can_next walk }
    requires ends { IsFinite (W.remaining walk) }
{
    text.say("all");
    for item in walk {
        text.say(" ");
        item.write(text, lab);
    }
}
