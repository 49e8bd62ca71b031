//! `ir_base::attribute`.

use ir_base::attribute::{
    AttrInterfaceMarker, Attribute, AttributeDict, OutlinedAttr, TypedAttrInterface, attr_impls,
    attr_impls_static, attr_should_outline, attr_type,
};
use ir_base::prelude::*;
use std::collections::hash_map::DefaultHasher;
use std::hash::Hash;

/// Dictionaries.
pub fn dictionaries<D: Dialects, T: Attribute<D>, I: AttrInterfaceMarker>() {
    let _ = AttributeDict::<D>::new;
    let _ = AttributeDict::<D>::get::<T>;
    let _ = AttributeDict::<D>::get_mut::<T>;
    let _ = AttributeDict::<D>::get_as::<I>;
    let _ = AttributeDict::<D>::set::<T>;
    let _ = AttributeDict::<D>::clone;
    let _ = AttributeDict::<D>::clone_skip_outlined;
    let _ = AttributeDict::<D>::iter;
    let _ = AttributeDict::<D>::len;
    let _ = AttributeDict::<D>::is_empty;
    let _ = AttributeDict::<D>::remove;
    let _ = <AttributeDict<D> as PartialEq>::eq;
    let _ = <AttributeDict<D> as Hash>::hash::<DefaultHasher>;
}

/// Attributes of one kind, and their interfaces.
pub fn attributes<D: Dialects, T: Attribute<D>, I: AttrInterfaceMarker>() {
    let _ = T::KIND;
    let _ = T::into_attr;
    let _ = T::of_attr;
    let _ = T::of_attr_mut;
    let _ = T::get_attr_id;
    let _ = T::get_attr_id_static;
    let _ = I::NUMBER;
    let _ = OutlinedAttr::NUMBER;
    let _ = TypedAttrInterface::NUMBER;
    let _ = attr_impls::<I, D>;
    let _ = attr_impls_static::<T, I, D>;
    let _ = attr_type::<D>;
    let _ = attr_should_outline::<D>;
}
