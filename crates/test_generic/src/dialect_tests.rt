//! Types, attributes, locations and saved data of the dialect Generic.

use generic_dialect::{
    Generic, GenericAttr, GenericLoc, GenericSaved, GenericType, KeptAttr, TextId, properties_key,
};
use ir_base_dialects::attribute::{AttributeDict, attr_type};
use ir_base_dialects::interfaces::{OUTLINED_ATTRIBUTE, TYPED_ATTRIBUTE};
use ir_base_dialects::{Dialects, Identifier, SavedValue, unknown_loc};
use std::alloc::Global;
use std::fmt::Display;
use std::process::Abort;

// Whether a value prints as this text.
fn prints<T: Display>(rt: &impl Abort, alloc: Global, value: &T, expected: &str) -> bool {
    format!(in alloc; "{value}").expect(rt, "memory").as_str() == expected
}

#[test]
fn operation_ids(rt: HostRuntime) {
    let operation = Generic::op_id(rt.alloc(), 65_536).expect(&rt, "memory");
    assert!(rt; prints(&rt, rt.alloc(), &operation, "generic.operation"));
}

#[test]
fn attribute_ids(rt: HostRuntime) {
    let attribute = Generic::attr_id(rt.alloc(), 0).expect(&rt, "memory");
    assert!(rt; prints(&rt, rt.alloc(), &attribute, "generic.text"));
}

#[test]
fn type_ids(rt: HostRuntime) {
    let ty = Generic::type_id(rt.alloc(), 0).expect(&rt, "memory");
    assert!(rt; prints(&rt, rt.alloc(), &ty, "generic.text"));
}

#[test]
fn places_of_texts(rt: HostRuntime) {
    let last = u32::MAX as usize;
    assert!(rt; TextId::at(7) == Some(TextId(7)) && TextId(7).index() == 7);
    assert!(rt; TextId::at(last) == Some(TextId(u32::MAX)));
    assert!(rt; TextId::at(last + 1).is_none());
}

#[test]
fn attributes(rt: HostRuntime) {
    let alloc = rt.alloc();
    for attr in [GenericAttr::Unit, GenericAttr::Text(TextId(5))] {
        let kept = KeptAttr(attr);
        let kind = Generic::attr_kind(&kept);
        assert!(rt; kind == 0 && attr_type::<Generic>(&kept).is_none());
        assert!(rt; !Generic::attr_impls(kind, TYPED_ATTRIBUTE));
        assert!(rt; !Generic::attr_impls(kind, OUTLINED_ATTRIBUTE));
        assert!(rt; !Generic::attr_outline(&kept));
        assert!(rt; Generic::copy_attr(alloc, &kept).expect(&rt, "memory") == kept);
    }
}

// The attribute of the properties.
const PROPERTIES: GenericAttr = GenericAttr::Text(TextId(5));

// A dictionary with properties and a flag.
fn dictionary(rt: &impl Abort, alloc: Global) -> AttributeDict<Generic> {
    let mut dict: AttributeDict<Generic> = AttributeDict::new(alloc);
    dict.set(properties_key(), PROPERTIES).expect(rt, "memory");
    dict.set(Identifier::new("flag"), GenericAttr::Unit)
        .expect(rt, "memory");
    dict
}

// What stands under the key of the flag.
fn flag(dict: &AttributeDict<Generic>) -> Option<&GenericAttr> {
    dict.get::<GenericAttr>(&Identifier::new("flag"))
}

#[test]
fn dictionaries(rt: HostRuntime) {
    let dict = dictionary(&rt, rt.alloc());
    assert!(rt; dict.get::<GenericAttr>(&properties_key()) == Some(&PROPERTIES));
    assert!(rt; flag(&dict) == Some(&GenericAttr::Unit));
    assert!(rt; dict.get::<GenericAttr>(&Identifier::new("other")).is_none());
}

#[test]
fn dictionaries_are_written(rt: HostRuntime) {
    let mut dict = dictionary(&rt, rt.alloc());
    if let Some(attr) = dict.get_mut::<GenericAttr>(&Identifier::new("flag")) {
        *attr = PROPERTIES;
    }
    assert!(rt; flag(&dict) == Some(&PROPERTIES));
}

#[test]
fn types_and_saved(rt: HostRuntime) {
    let alloc = rt.alloc();
    let ty = GenericType(TextId(2));
    assert!(rt; Generic::type_kind(&ty) == 0 && !Generic::type_impls(0, 16));
    let bytes = Vec::from_slice(alloc, b"i32").expect(&rt, "memory");
    let saved = GenericSaved(bytes).to_saved();
    assert!(rt; Generic::saved_kind(&saved) == 0);
    let found = GenericSaved::of_saved(&saved).expect(&rt, "a text");
    assert!(rt; found.0.as_slice() == b"i32".as_slice());
}

#[test]
fn locations(rt: HostRuntime) {
    assert!(rt; unknown_loc::<Generic>() == GenericLoc::Unknown);
    assert!(rt; GenericLoc::default() == GenericLoc::Unknown);
    assert!(rt; GenericLoc::Text(TextId(1)) != GenericLoc::Unknown);
}
