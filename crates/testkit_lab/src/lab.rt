//! The state of a lab.

ghost use Rattle.std.specs.Prelude.{◌<◌, ◌≤◌};

use crate::beside::{Beside, Saved};
use crate::entering::read_session;
use crate::reply::Reply;
use crate::small_lab::SmallLab;
use crate::tables::Tables;
use ir_base_dialects::{Limits, Ptr, TypeHandle};
use ir_core_context::AuxDataIndex;
use ir_run_sessions::Session;
use ir_view_parts::{BasicBlock, Context, Entity, Operation, Region, Use, Value};
use std::alloc::{AllocError, Global};
use testkit_edit_texts::{TextError, number};
use toy_dialect::Toy;

// How many bytes an answer may have before it asks for memory.
const ANSWER_ROOM: usize = 65_536;

// How many uses of values, and of blocks, may be entered before that asks for memory.
const USE_ROOM: usize = 256;

/// What a lab is about.
#[derive(Clone, Copy, Debug, Drop, PartialEq, Eq)]
pub enum Mode {
    /// A session, which carries edits out in runs.
    Session,
    /// A context, which is edited by direct calls.
    Context,
}

/// A session or a context over the dialect Toy, the tables of what was made in it, and the answer to the last line.
#[derive(Drop)]
pub struct Lab {
    /// Which of the next two is meant. The other one is empty.
    pub mode: Mode,
    /// The session.
    pub session: Box<Session<Toy>>,
    /// The context.
    pub context: Box<Context<Toy>>,
    /// What was made.
    pub tables: Tables,
    /// The uses of values that were taken.
    pub value_uses: Vec<Use<Value<Toy>>>,
    /// The uses of blocks that were taken.
    pub block_uses: Vec<Use<Ptr<BasicBlock<Toy>>>>,
    /// What was stored beside the forest.
    pub beside: Beside,
    /// A context of the small dialect.
    pub small: SmallLab,
    /// The answer, without its last newline.
    pub text: Reply,
}

impl Lab {
    /// A lab with an empty session of default limits.
    ///
    /// # Errors
    /// Where a growth was refused.
    pub fn new(alloc: Global) -> Result<Lab, AllocError> {
        Ok(Lab {
            mode: Mode::Session,
            session: new_session(alloc, Limits::default())?,
            context: new_context(alloc, Limits::default())?,
            tables: Tables::new(alloc),
            value_uses: Vec::with_capacity(alloc, USE_ROOM)?,
            block_uses: Vec::with_capacity(alloc, USE_ROOM)?,
            beside: Beside::new(alloc)?,
            small: SmallLab::new(alloc)?,
            text: Reply::with_room(alloc, ANSWER_ROOM)?,
        })
    }

    /// Begins anew, with these limits.
    ///
    /// # Errors
    /// `Malformed` where a limit passes its default or a slot may have no version, and `OutOfMemory`.
    pub fn begin(&mut self, mode: Mode, limits: Limits) -> Result<(), TextError> {
        if limits.slots == u32::MAX || limits.last_version == 0 {
            return Err(TextError::Malformed);
        }
        let alloc = self.alloc();
        self.session = new_session(alloc, limits)?;
        self.context = new_context(alloc, limits)?;
        self.small.begin(alloc)?;
        self.mode = mode;
        self.forget();
        Ok(())
    }

    // Takes all entries out of the tables.
    fn forget(&mut self) {
        let alloc = self.alloc();
        self.tables = Tables::new(alloc);
        self.value_uses.clear();
        self.block_uses.clear();
        self.beside.forget(alloc);
    }

    /// The allocator.
    pub fn alloc(&self) -> Global {
        self.context.alloc()
    }

    /// The context that is asked.
    pub fn ctx(&self) -> &Context<Toy> {
        asked(self.mode, &self.session, &self.context)
    }

    /// Enters what the session has beside the entries that are there.
    ///
    /// # Errors
    /// Where a growth was refused.
    pub fn read(&mut self) -> Result<(), AllocError> {
        read_session(&mut self.tables, &self.session)
    }

    /// The type with this name.
    ///
    /// # Errors
    /// `Malformed` where there is none, as with the others below.
    pub fn ty(&self, name: &str) -> Result<TypeHandle, TextError> {
        named('t', &self.tables.types, name)
    }

    /// The operation with this name.
    pub fn op(&self, name: &str) -> Result<Ptr<Operation<Toy>>, TextError> {
        named('o', &self.tables.ops, name)
    }

    /// The block with this name.
    pub fn block(&self, name: &str) -> Result<Ptr<BasicBlock<Toy>>, TextError> {
        named('b', &self.tables.blocks, name)
    }

    /// The region with this name.
    pub fn region(&self, name: &str) -> Result<Ptr<Region>, TextError> {
        named('r', &self.tables.regions, name)
    }

    /// The operation, the block or the region with this name.
    pub fn entity(&self, name: &str) -> Result<Entity<Toy>, TextError> {
        match name.chars().next() {
            Some('o') => Ok(Entity::Op(self.op(name)?)),
            Some('b') => Ok(Entity::Block(self.block(name)?)),
            _ => Ok(Entity::Region(self.region(name)?)),
        }
    }

    /// The value with this name.
    pub fn value(&self, name: &str) -> Result<Value<Toy>, TextError> {
        named('v', &self.tables.values, name)
    }

    /// The index of auxiliary data with this name.
    pub fn aux(&self, name: &str) -> Result<AuxDataIndex, TextError> {
        named('a', &self.beside.aux, name)
    }

    /// The saved value with this name.
    pub fn saved(&self, name: &str) -> Result<Saved, TextError> {
        named('s', &self.beside.saved, name)
    }

    /// The use of a value with this name.
    pub fn value_use(&self, name: &str) -> Result<Use<Value<Toy>>, TextError> {
        named('u', &self.value_uses, name)
    }

    /// The use of a block with this name.
    pub fn block_use(&self, name: &str) -> Result<Use<Ptr<BasicBlock<Toy>>>, TextError> {
        named('w', &self.block_uses, name)
    }
}

/// The context that is asked in this mode, of a session and a context.
pub fn asked<'a>(
    mode: Mode,
    session: &'a Session<Toy>,
    context: &'a Context<Toy>,
) -> &'a Context<Toy> {
    match mode {
        Mode::Session => session.ctx(),
        Mode::Context => context,
    }
}

// An item of a table by its name with the letter.
fn named<T: Copy + Drop>(letter: char, table: &[T], name: &str) -> Result<T, TextError> {
    let Some(number) = number(letter, name) else {
        return Err(TextError::Malformed);
    };
    match table.get(number) {
        Some(item) => Ok(*item),
        None => Err(TextError::Malformed),
    }
}

// An empty session.
fn new_session(alloc: Global, limits: Limits) -> Result<Box<Session<Toy>>, AllocError>
    requires slots { limits.slots < 4294967295 }
    requires versions { 1 ≤ limits.last_version }
{
    Ok(Box::new(alloc, Session::new(alloc, limits))?)
}

// An empty context.
fn new_context(alloc: Global, limits: Limits) -> Result<Box<Context<Toy>>, AllocError>
    requires slots { limits.slots < 4294967295 }
    requires versions { 1 ≤ limits.last_version }
{
    Ok(Box::new(alloc, Context::with_limits(alloc, limits))?)
}
