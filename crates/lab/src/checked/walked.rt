//! The calls that give a walk, which is written item by item.

use crate::checked::told::{tell_error, tell_walk};
use ir_base_dialects::Ptr;
use ir_checked::{operation as views, walk};
use ir_checked_core::{basic_block, operation, region as regions};
use ir_view_parts::{BasicBlock, Entity, Operation, Region};
use testkit_lab::{Lab, Reply};
use toy_dialect::Toy;

pub(crate) fn ops(text: &mut Reply, lab: &Lab, block: Ptr<BasicBlock<Toy>>) {
    match basic_block::iter(block, lab.ctx()) {
        Ok(walk) => tell_walk(text, lab, walk),
        Err(error) => tell_error(text, error),
    }
}

pub(crate) fn blocks(text: &mut Reply, lab: &Lab, region: Ptr<Region>) {
    match regions::iter(region, lab.ctx()) {
        Ok(walk) => tell_walk(text, lab, walk),
        Err(error) => tell_error(text, error),
    }
}

pub(crate) fn uses(text: &mut Reply, lab: &Lab, op: Ptr<Operation<Toy>>) {
    match operation::uses(op, lab.ctx()) {
        Ok(walk) => tell_walk(text, lab, walk),
        Err(error) => tell_error(text, error),
    }
}

pub(crate) fn operand_types(text: &mut Reply, lab: &Lab, op: Ptr<Operation<Toy>>) {
    match views::operand_types(op, lab.ctx()) {
        Ok(walk) => tell_walk(text, lab, walk),
        Err(error) => tell_error(text, error),
    }
}

pub(crate) fn inside(text: &mut Reply, lab: &Lab, entity: Entity<Toy>) {
    match walk::inside(lab.ctx(), entity) {
        Ok(walk) => tell_walk(text, lab, walk),
        Err(error) => tell_error(text, error),
    }
}

pub(crate) fn inside_preorder(text: &mut Reply, lab: &Lab, entity: Entity<Toy>) {
    match walk::inside_preorder(lab.ctx(), entity) {
        Ok(walk) => tell_walk(text, lab, walk),
        Err(error) => tell_error(text, error),
    }
}

pub(crate) fn ops_inside(text: &mut Reply, lab: &Lab, entity: Entity<Toy>) {
    match walk::ops_inside(lab.ctx(), entity) {
        Ok(walk) => tell_walk(text, lab, walk),
        Err(error) => tell_error(text, error),
    }
}

pub(crate) fn ops_inside_preorder(text: &mut Reply, lab: &Lab, entity: Entity<Toy>) {
    match walk::ops_inside_preorder(lab.ctx(), entity) {
        Ok(walk) => tell_walk(text, lab, walk),
        Err(error) => tell_error(text, error),
    }
}
