//! The lists inside a record.

ghost use Rattle.std.specs.Prelude.{◌≡◌};

use crate::store_call::StoreCall;
use ir_base_dialects::{CoreError, PlainSeq, Seq};
use std::alloc::{AllocError, Global};

/// A call that lets a list grow.
#[derive(Clone, Copy, Debug, Drop)]
pub enum ListCall {
    /// `reserve`.
    Reserve,
    /// `push`.
    Push,
    /// `insert`.
    Insert,
    /// `extend`.
    Extend,
}

impl ListCall {
    /// All of them.
    pub const ALL: [ListCall; 4] = [
        ListCall::Reserve,
        ListCall::Push,
        ListCall::Insert,
        ListCall::Extend,
    ];

    /// The call as `ALL` has it.
    pub fn listed(self) -> ListCall
        ensures { result ≡ self }
    {
        ListCall::ALL[self as usize]
    }

    // Makes the call on a list in memory of its own.
    fn grow(self, list: &mut Seq<u64>) -> Result<(), AllocError> {
        match self {
            ListCall::Reserve => list.reserve(100),
            ListCall::Push => list.push(9),
            ListCall::Insert => list.insert(0, 9),
            ListCall::Extend => list.extend(&[9, 9, 9, 9, 9, 9, 9, 9]),
        }
    }

    // Makes the call on a list in the record itself.
    fn grow_short(self, list: &mut PlainSeq<u64, 2>) -> Result<(), AllocError> {
        match self {
            ListCall::Reserve => list.reserve(100),
            ListCall::Push => list.push(9),
            ListCall::Insert => list.insert(0, 9),
            ListCall::Extend => list.extend(&[9, 9, 9, 9, 9, 9, 9, 9]),
        }
    }

    // The list 1, 2 after the call.
    fn grown(self) -> &'static [u64] {
        match self {
            ListCall::Reserve => &[1, 2],
            ListCall::Push => &[1, 2, 9],
            ListCall::Insert => &[9, 1, 2],
            ListCall::Extend => &[1, 2, 9, 9, 9, 9, 9, 9, 9, 9],
        }
    }

    // Whether the list has grown as it is answered.
    fn fits(self, answer: Result<(), AllocError>, list: &[u64]) -> bool {
        if answer.is_ok() {
            list == self.grown()
        } else {
            list == [1, 2].as_slice()
        }
    }
}

impl StoreCall for ListCall {
    fn name(self) -> &'static str {
        match self {
            ListCall::Reserve => "Seq::reserve",
            ListCall::Push => "Seq::push",
            ListCall::Insert => "Seq::insert",
            ListCall::Extend => "Seq::extend",
        }
    }

    fn make(self, alloc: Global) -> Result<bool, CoreError> {
        let mut list = Seq::new(alloc);
        list.extend(&[1, 2])?;
        let mut short = PlainSeq::new(alloc);
        short.extend(&[1, 2])?;
        let (whole, other) = (self.grow(&mut list), self.grow_short(&mut short));
        Ok(self.fits(whole, list.as_slice()) && self.fits(other, short.as_slice()))
    }
}
