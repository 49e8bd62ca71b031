//! `ir_run`.

use ir_base::prelude::*;
use ir_run::dead::sweep;
use ir_run::ircore::run_script;
use ir_run::run::{Answer, Edit, Refused, Session, choices_unseen};
use ir_run::toy::{Toy, ToyVerifiers};
use ir_verify::verify::verify_type;
use std::io::{Read, Write};

/// Sessions.
pub fn sessions<D: Dialects>(_edits: &[Edit<D>]) {
    let _ = Session::<D>::new;
    let _ = Session::<D>::ctx;
    let _ = Session::<D>::op;
    let _ = Session::<D>::block;
    let _ = Session::<D>::region;
    let _ = Session::<D>::value;
    let _ = Session::<D>::ty;
    let _ = Session::<D>::run;
    let _ = Answer::Made;
    let _ = Answer::Done;
    let _ = Answer::Refused;
    let _ = Refused::Condition;
    let _ = Refused::Memory;
    let _ = Refused::Counter;
    let _ = Refused::Slots;
    let _ = choices_unseen::<D>;
}

/// Scripts, the dialect Toy with its checks, and the sweep.
pub fn scripts<R: Read, W: Write, F: Write>() {
    let _ = run_script::<R, W, F>;
    let _ = verify_type::<Toy, ToyVerifiers>;
    let _ = sweep::<Toy>;
}
