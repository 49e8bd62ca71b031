//! The calls without a context that ask for no memory, and what is asked of a session.

use ir_base_dialects::{CoreError, Dialects, Identifier, Limits};
use ir_run_sessions::{Edit, Session, choices_unseen};
use std::alloc::Global;
use std::process::Abort;
use std::test::Fail;
use testkit_store_calls::{StoreReading, Stores};
use toy_dialect::{Toy, ToyType};

// Writes the names of the calls that are made next.
fn tell_names<R: Abort + Print>(rt: &R, names: &[&str]) {
    for name in names {
        assert!(rt; println!(rt; "call {name}").is_ok());
    }
}

// Makes the calls between two lines of output, so that whoever watches sees what they ask for.
fn try_store_reading<R: Abort + Print>(rt: &R, stores: &mut Stores, reading: StoreReading) {
    tell_names(rt, reading.names());
    assert!(rt; println!(rt; "ready").is_ok());
    let answer = reading.make(stores);
    assert!(rt; println!(rt; "done").is_ok());
    assert!(rt; answer, "{reading:?}");
}

#[test]
fn stores_without_memory(rt: HostRuntime) -> Result<(), Fail> {
    for reading in StoreReading::ALL.iter() {
        try_store_reading(&rt, &mut Stores::new(rt.alloc())?, *reading);
    }
    Ok(())
}

// The texts of an identifier, a name, an id and an index.
#[test]
fn texts_without_memory(rt: HostRuntime) -> Result<(), Fail> {
    let stores = Stores::new(rt.alloc())?;
    assert!(rt; println!(rt; "ready").is_ok());
    let written = stores.write(&rt);
    assert!(rt; println!(rt; "done").is_ok());
    assert!(rt; written);
    Ok(())
}

// A type, an operation with a result and a region, and a block.
fn edits(alloc: Global) -> Result<Vec<Edit<Toy>>, CoreError> {
    let mut edits = Vec::with_capacity(alloc, 3)?;
    edits.push(Edit::NewType(ToyType::Int { width: 32 }))?;
    edits.push(Edit::NewOp {
        kind: 5,
        types: [0].to_vec(alloc)?,
        operands: Vec::new(alloc),
        successors: Vec::new(alloc),
        regions: 1,
    })?;
    edits.push(Edit::NewBlock {
        label: None,
        types: Vec::new(alloc),
    })?;
    Ok(edits)
}

// Makes one of each in the session.
fn make_each(alloc: Global, session: &mut Session<Toy>) -> Result<(), CoreError> {
    session.run(edits(alloc)?)?;
    if has_one_of_each(session) {
        Ok(())
    } else {
        Err(CoreError::OutOfMemory)
    }
}

fn has_one_of_each(session: &Session<Toy>) -> bool {
    session.ty(0).is_some()
        && session.op(0).is_some()
        && session.block(0).is_some()
        && session.region(0).is_some()
        && session.value(0).is_some()
}

// Asks for the tables and for the context of a session with one of each.
fn ask<R: Abort + Print>(rt: &R, session: &Session<Toy>) {
    let names = [
        "Session::ty",
        "Session::op",
        "Session::block",
        "Session::region",
    ];
    tell_names(rt, &names);
    tell_names(rt, &["Session::value", "Session::ctx"]);
    assert!(rt; println!(rt; "ready").is_ok());
    let answer = has_one_of_each(session) && !session.ctx().is_ir_empty();
    assert!(rt; println!(rt; "done").is_ok());
    assert!(rt; answer);
}

// Whether a new session is empty, and nothing is saved or named in it.
fn is_new_empty<D: Dialects>(alloc: Global) -> bool {
    choices_unseen::<D>();
    let session: Session<D> = Session::new(alloc, Limits::default());
    let ctx = session.ctx();
    let named = ctx.aux_by_name(&Identifier::new("name")).is_some();
    let answer = ctx.is_ir_empty() && ctx.saved_at(0).is_none() && !named;
    session.end(answer)
}

#[test]
fn sessions_without_memory(rt: HostRuntime) -> Result<(), Fail> {
    let mut session: Session<Toy> = Session::new(rt.alloc(), Limits::default());
    let made = make_each(rt.alloc(), &mut session);
    if made.is_ok() {
        ask(&rt, &session);
    }
    Ok(session.end(made)?)
}

#[test]
fn a_new_session_without_memory(rt: HostRuntime) {
    tell_names(&rt, &["Session::new", "choices_unseen"]);
    assert!(rt; println!(rt; "ready").is_ok());
    let answer = is_new_empty::<Toy>(rt.alloc());
    assert!(rt; println!(rt; "done").is_ok());
    assert!(rt; answer);
}
