//! `ir_base::op` and `ir_view::op`.

use ir_base::op::{
    IsTerminatorInterface, NoTerminatorInterface, OpInterfaceMarker, PureOpInterface,
    RegionKindInterface,
};
use ir_base::prelude::*;
use ir_view::op::{Op, OpObj, op_impls, op_impls_static};
use std::collections::hash_map::DefaultHasher;
use std::hash::Hash;

/// Wrapped operations.
pub fn wrapped<D: Dialects, T: Op<D> + Drop>() {
    let _ = T::KIND;
    let _ = T::get_operation;
    let _ = T::from_operation;
    let _ = T::get_opid;
    let _ = T::get_opid_static;
    let _ = T::loc;
    let _ = OpObj::<D>::new::<T>;
    let _ = OpObj::<D>::get_operation;
    let _ = OpObj::<D>::kind;
    let _ = OpObj::<D>::downcast::<T>;
    let _ = <OpObj<D> as Clone>::clone;
    let _ = <OpObj<D> as PartialEq>::eq;
    let _ = <OpObj<D> as Hash>::hash::<DefaultHasher>;
}

/// Interfaces of operations.
pub fn interfaces<D: Dialects, T: Op<D>, I: OpInterfaceMarker>() {
    let _ = I::NUMBER;
    let _ = IsTerminatorInterface::NUMBER;
    let _ = NoTerminatorInterface::NUMBER;
    let _ = RegionKindInterface::NUMBER;
    let _ = PureOpInterface::NUMBER;
    let _ = op_impls::<I, D>;
    let _ = op_impls_static::<T, I, D>;
}
