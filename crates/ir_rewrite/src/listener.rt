//! Who is told what a driver changes.

use crate::rewriter::Change;
use ir_base_dialects::{Dialects, Ptr};
use ir_core_queries::{Context, Operation};

/// What a driver tells of each change that a pattern noted, once the pattern has answered yes. It stands for pliron's `RewriteListener`.
pub trait Listener<D: Dialects> {
    /// The operation was put in.
    fn inserted(&mut self, ctx: &Context<D>, op: &Ptr<Operation<D>>);

    /// The operation was moved, or what it says of itself was changed.
    fn modified(&mut self, ctx: &Context<D>, op: &Ptr<Operation<D>>);

    /// The operation went, with all that stood inside it.
    fn erased(&mut self, ctx: &Context<D>, op: &Ptr<Operation<D>>);
}

/// A listener that does nothing.
#[derive(Clone, Copy, Drop)]
pub struct DummyListener;

impl<D: Dialects> Listener<D> for DummyListener {
    fn inserted(&mut self, _ctx: &Context<D>, _op: &Ptr<Operation<D>>) {}

    fn modified(&mut self, _ctx: &Context<D>, _op: &Ptr<Operation<D>>) {}

    fn erased(&mut self, _ctx: &Context<D>, _op: &Ptr<Operation<D>>) {}
}

// Tells the listener of each change, in order.
pub(crate) fn tell<D: Dialects, L: Listener<D>>(
    ctx: &Context<D>,
    listener: &mut L,
    changes: &[Change<D>],
) {
    for change in changes {
        match *change {
            Change::Inserted(op) => listener.inserted(ctx, &op),
            Change::Modified(op) => listener.modified(ctx, &op),
            Change::Touched(_) => {}
            Change::Erased(op) => listener.erased(ctx, &op),
        }
    }
}
