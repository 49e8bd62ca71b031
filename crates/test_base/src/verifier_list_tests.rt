//! Verifiers of one owner are joined and kept once, and double dictionary keys are told by their places.
ghost use Rattle.ir_model.specs.Identifier.{IsIdentifier};

use crate::expecting::{expect_same, is_copied, prints};
use ir_base_dialects::{
    DictKeyId, DuplicateKey, Identifier, collect_deduped_interface_verifiers, verify_dict_keys,
};
use std::alloc::Global;
use std::process::Abort;

fn key(name: &'static str, line: u32) -> DictKeyId
    requires { IsIdentifier name.now }
{
    DictKeyId {
        id: Identifier::new(name),
        file: "keys.rs",
        line,
        column: 1,
    }
}

/// An owner and verifiers of it.
type Entry<'a> = (u32, &'a [u32]);

// The entries with lists of their own.
fn owned(rt: &impl Abort, alloc: Global, entries: &[Entry<'_>]) -> Vec<(u32, Vec<u32>)> {
    let mut owned = Vec::new(alloc);
    for (owner, verifiers) in entries {
        let list = verifiers.to_vec(alloc).expect(rt, "memory");
        owned.push((*owner, list)).expect(rt, "memory");
    }
    owned
}

// Whether the entries are collected into these.
fn collects(rt: &impl Abort, alloc: Global, entries: &[Entry<'_>], expected: &[Entry<'_>]) -> bool {
    let entries = owned(rt, alloc, entries);
    let lists = collect_deduped_interface_verifiers(alloc, entries.as_slice());
    are_lists(lists.expect(rt, "memory").as_slice(), expected)
}

fn are_lists(lists: &[(u32, Vec<u32>)], expected: &[Entry<'_>]) -> bool {
    for ((owner, verifiers), (wanted, numbers)) in lists.iter().zip(expected) {
        if owner != wanted || verifiers.as_slice() != *numbers {
            return false;
        }
    }
    lists.len() == expected.len()
}

#[test]
fn verifier_lists_and_keys(rt: HostRuntime) {
    let keys = [key("a", 1), key("b", 2), key("a", 3), key("b", 4)];
    let double = DuplicateKey {
        first: 0,
        second: 2,
    };
    expect_same(&rt, verify_dict_keys(&keys), Err(double));
    let entries: [Entry<'_>; 3] = [(7, &[1, 2]), (7, &[1, 3]), (7, &[2, 4])];
    let collected = collects(&rt, rt.alloc(), &entries, &[(7, &[1, 2, 3, 4])]);
    expect_same(&rt, collected, true);
}

#[test]
fn owners_in_the_order_of_their_first_entry(rt: HostRuntime) {
    let entries: [Entry<'_>; 3] = [(9, &[5]), (2, &[5, 5]), (9, &[4, 5])];
    assert!(rt; collects(&rt, rt.alloc(), &entries, &[(9, &[5, 4]), (2, &[5])]));
}

// Refuses a call that answers want of memory where there is nothing to collect.
#[test]
fn no_entries(rt: HostRuntime) {
    let alloc = rt.alloc();
    assert!(rt; collects(&rt, alloc, &[], &[]) && collects(&rt, alloc, &[(1, &[])], &[(1, &[])]));
}

#[test]
fn different_keys(rt: HostRuntime) {
    let keys = [key("b", 2), key("a", 1), key("c", 1)];
    let copied = is_copied(&rt, &keys[1]);
    let same_name = keys[1] == key("a", 3);
    let answer = verify_dict_keys(&keys);
    expect_same(&rt, (answer, copied, same_name), (Ok(()), true, false));
}

#[test]
fn double_keys_print_their_places(rt: HostRuntime) {
    let double = DuplicateKey {
        first: 0,
        second: 2,
    };
    let text = "Duplicate dictionary key at places 0 and 2";
    assert!(rt; prints(&rt, rt.alloc(), &double, text));
}
