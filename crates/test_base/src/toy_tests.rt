//! The tables of the dialect Toy, ids, and copies.

use crate::expecting::{expect_same, prints, text};
use ir_base_dialects::interfaces::{
    NO_TERMINATOR, OUTLINED_ATTRIBUTE, PURE_OPERATION, REGION_KIND, TERMINATOR, TYPED_ATTRIBUTE,
};
use ir_base_dialects::{Dialects, Identifier, TypeHandle, unknown_loc};
use std::alloc::Global;
use std::process::Abort;
use toy_dialect::{
    SIZED_TYPE, Toy, ToyAttr, ToyInt, ToyLoc, ToyOutlined, ToySaved, ToyText, ToyType,
};

// Whether the id of the operations of this kind is printed so.
fn is_op_id(rt: &impl Abort, alloc: Global, kind: u32, printed: &str) -> bool {
    let id = Toy::op_id(alloc, kind).expect(rt, "memory");
    prints(rt, alloc, &id, printed)
}

#[test]
fn ids_of_operations(rt: HostRuntime) {
    let ids = [
        "toy.constant",
        "toy.add",
        "toy.return",
        "toy.branch",
        "toy.use",
        "toy.module",
        "toy.func",
        "toy.graph",
        "toy.unknown",
    ];
    for (kind, printed) in (0..9).zip(ids.iter()) {
        assert!(rt; is_op_id(&rt, rt.alloc(), kind, printed), "{printed}");
    }
}

#[test]
fn operations(rt: HostRuntime) {
    for (kind, interface, implements) in [
        (1, PURE_OPERATION, true),
        (3, TERMINATOR, true),
        (4, TERMINATOR, false),
        (5, NO_TERMINATOR, true),
        (7, REGION_KIND, true),
        (8, PURE_OPERATION, false),
    ] {
        assert!(rt; Toy::op_impls(kind, interface) == implements, "{kind}");
    }
    let dominance = (
        Toy::region_ssa_dominance(7, 0),
        Toy::region_ssa_dominance(7, 1),
    );
    expect_same(&rt, dominance, (false, true));
}

// Whether the attribute has this type, by its interface too, is outlined or not, and is equal to its copy.
fn is_told(
    rt: &impl Abort,
    alloc: Global,
    attr: ToyAttr,
    ty: Option<TypeHandle>,
    outlined: bool,
) -> bool {
    let kind = Toy::attr_kind(&attr);
    let types = (
        Toy::attr_type(&attr),
        Toy::attr_impls(kind, TYPED_ATTRIBUTE),
    );
    let outlines = (
        Toy::attr_outline(&attr),
        Toy::attr_impls(kind, OUTLINED_ATTRIBUTE),
    );
    let copied = Toy::copy_attr(alloc, &attr).expect(rt, "memory") == attr;
    types == (ty, ty.is_some()) && outlines == (outlined, outlined) && copied
}

// Whether the id of the attributes that are to be outlined is printed so.
fn is_attr_id(rt: &impl Abort, alloc: Global, printed: &str) -> bool {
    let id = Toy::attr_id(alloc, 2).expect(rt, "memory");
    prints(rt, alloc, &id, printed)
}

#[test]
fn attributes(rt: HostRuntime) {
    let alloc = rt.alloc();
    let ty = TypeHandle::at(3);
    let number = ToyAttr::Int(ToyInt { value: -1, ty });
    assert!(rt; is_told(&rt, alloc, number, Some(ty), false));
    let letters = ToyAttr::Text(ToyText(text(&rt, alloc, "a")));
    assert!(rt; is_told(&rt, alloc, letters, None, false));
    let outlined = ToyAttr::Outlined(ToyOutlined(text(&rt, alloc, "b")));
    assert!(rt; is_told(&rt, alloc, outlined, None, true));
    assert!(rt; is_attr_id(&rt, alloc, "toy.outlined"));
}

// Whether the id of the named types is printed so.
fn is_type_id(rt: &impl Abort, alloc: Global, printed: &str) -> bool {
    let id = Toy::type_id(alloc, 1).expect(rt, "memory");
    prints(rt, alloc, &id, printed)
}

// The kinds of types of integers and of named types.
fn type_kinds() -> (u32, u32) {
    let int = ToyType::Int { width: 8 };
    let named = ToyType::Named(Identifier::new("list"));
    (Toy::type_kind(&int), Toy::type_kind(&named))
}

#[test]
fn types_and_saved(rt: HostRuntime) {
    let (int, named) = type_kinds();
    let sized = (
        Toy::type_impls(int, SIZED_TYPE),
        Toy::type_impls(named, SIZED_TYPE),
    );
    let saved = (
        Toy::saved_kind(&ToySaved::U64(0)),
        Toy::saved_kind(&ToySaved::I64(0)),
    );
    expect_same(&rt, (named, sized, saved), (1, (true, false), (1, 2)));
    assert!(rt; is_type_id(&rt, rt.alloc(), "toy.named"));
}

#[test]
fn handles_and_locations(rt: HostRuntime) {
    let unknown = ToyLoc::default() == ToyLoc::Unknown && unknown_loc::<Toy>() == ToyLoc::Unknown;
    expect_same(&rt, (unknown, TypeHandle::at(4).index()), (true, 4));
}
