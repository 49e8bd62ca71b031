//! The calls without a context that may ask for memory.

use ir_base_dialects::CoreError;
use std::alloc::Global;
use std::process::Abort;
use std::test::Fail;
use testkit_store_calls::{
    DictionaryCall, IdentifierCall, LegaliserCall, ListCall, NameCall, StoreCall, StoringCall,
};

// Makes the call, between two lines of output.
fn try_call<R: Abort + Print, C: StoreCall>(
    rt: &R,
    alloc: Global,
    call: C,
) -> Result<(), CoreError> {
    let name = call.name();
    assert!(rt; println!(rt; "call {name}").is_ok());
    assert!(rt; println!(rt; "ready").is_ok());
    let answer = call.make(alloc);
    assert!(rt; println!(rt; "done").is_ok());
    assert!(rt; answer?, "{call:?}");
    Ok(())
}

// Makes each call of the group.
fn try_all<R: Abort + Print, C: StoreCall>(
    rt: &R,
    alloc: Global,
    group: &[C],
) -> Result<(), CoreError> {
    for call in group {
        try_call(rt, alloc, *call)?;
    }
    Ok(())
}

#[test]
fn names_with_memory(rt: HostRuntime) -> Result<(), Fail> {
    try_all(&rt, rt.alloc(), &IdentifierCall::ALL)?;
    try_all(&rt, rt.alloc(), &NameCall::ALL)?;
    try_all(&rt, rt.alloc(), &LegaliserCall::ALL)?;
    Ok(())
}

#[test]
fn stores_with_memory(rt: HostRuntime) -> Result<(), Fail> {
    try_all(&rt, rt.alloc(), &DictionaryCall::ALL)?;
    try_all(&rt, rt.alloc(), &StoringCall::ALL)?;
    try_all(&rt, rt.alloc(), &ListCall::ALL)?;
    Ok(())
}
