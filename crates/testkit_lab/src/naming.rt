//! What stands for things in answers.

use crate::lab::Lab;
use crate::tables::{NOWHERE, number_in};
use ir_base_dialects::{Ptr, TypeHandle};
use ir_view_parts::{
    BasicBlock, BlockUseQueries, IndexErr, Operation, Region, Use, UseQueries, Value,
};
use std::fmt;
use std::fmt::{Display, Formatter, Write};
use toy_dialect::{Toy, ToyLoc};

/// What stands for something in an answer.
#[derive(Clone, Copy, Debug, Drop, PartialEq, Eq)]
pub enum Name {
    /// `-`: there is nothing.
    Nothing,
    /// `o3`: an entry of a table, or `o?` of what is in no table.
    Entry(char, usize),
    /// `o3.1`: an operand or a successor, by its operation and its index.
    Place(usize, usize),
}

impl Display for Name {
    fn fmt<W: Write>(&self, f: &mut Formatter<W>) -> fmt::Result {
        match *self {
            Name::Nothing => f.write_str("-"),
            Name::Entry(letter, NOWHERE) => write!(f, "{letter}?"),
            Name::Entry(letter, number) => write!(f, "{letter}{number}"),
            Name::Place(op, index) => write!(f, "o{op}.{index}"),
        }
    }
}

/// What has a name in answers.
pub trait Named: Copy + Drop {
    /// The name.
    fn name(self, lab: &Lab) -> Name;
}

/// The name of what may be there.
pub fn name_of<T: Named>(lab: &Lab, item: Option<T>) -> Name {
    match item {
        Some(item) => item.name(lab),
        None => Name::Nothing,
    }
}

impl Named for TypeHandle {
    fn name(self, lab: &Lab) -> Name {
        Name::Entry('t', lab.tables.type_number(self))
    }
}

impl Named for Ptr<Operation<Toy>> {
    fn name(self, lab: &Lab) -> Name {
        Name::Entry('o', lab.tables.op_number(self))
    }
}

impl Named for Ptr<BasicBlock<Toy>> {
    fn name(self, lab: &Lab) -> Name {
        Name::Entry('b', lab.tables.block_number(self))
    }
}

impl Named for Ptr<Region> {
    fn name(self, lab: &Lab) -> Name {
        Name::Entry('r', lab.tables.region_number(self))
    }
}

impl Named for Value<Toy> {
    fn name(self, lab: &Lab) -> Name {
        Name::Entry('v', lab.tables.value_number(self))
    }
}

impl Named for Use<Value<Toy>> {
    fn name(self, lab: &Lab) -> Name {
        Name::Entry('u', number_in(&lab.value_uses, self))
    }
}

impl Named for Use<Ptr<BasicBlock<Toy>>> {
    fn name(self, lab: &Lab) -> Name {
        Name::Entry('w', number_in(&lab.block_uses, self))
    }
}

/// A use that stands somewhere.
pub trait Placed: Copy + Drop + PartialEq {
    /// The operation that has it.
    fn user_of(self) -> Ptr<Operation<Toy>>;

    /// Its index there.
    ///
    /// # Errors
    /// Where it stands nowhere.
    fn index_in(self, lab: &Lab) -> Result<usize, IndexErr>;

    /// The place by which an answer names it.
    fn place(self, lab: &Lab) -> Name {
        let user = lab.tables.op_number(self.user_of());
        match self.index_in(lab) {
            Ok(index) => Name::Place(user, index),
            Err(_) => Name::Nothing,
        }
    }
}

impl Placed for Use<Value<Toy>> {
    fn user_of(self) -> Ptr<Operation<Toy>> {
        self.user_op()
    }

    fn index_in(self, lab: &Lab) -> Result<usize, IndexErr> {
        self.try_find_index(lab.ctx())
    }
}

impl Placed for Use<Ptr<BasicBlock<Toy>>> {
    fn user_of(self) -> Ptr<Operation<Toy>> {
        self.user_op()
    }

    fn index_in(self, lab: &Lab) -> Result<usize, IndexErr> {
        self.try_find_index(lab.ctx())
    }
}

/// A location, as an answer has it: the line, or `-`.
#[derive(Clone, Copy, Debug, Drop)]
pub struct Line(pub ToyLoc);

impl Display for Line {
    fn fmt<W: Write>(&self, f: &mut Formatter<W>) -> fmt::Result {
        match self.0 {
            ToyLoc::Unknown => f.write_str("-"),
            ToyLoc::Line(line) => write!(f, "{line}"),
        }
    }
}
