//! What a block tells of itself, and what callers may write of it.
//!
//! Which operations stand in a block is told by their links, and so by a context alone. A block tells the same whatever they are.

ghost use Rattle.std.specs.Prelude.{◌≡◌, ◌<◌, [], length, Some, slice_get};

use crate::handles::Value;
use crate::record::{BasicBlock, BasicBlockMut, Definer, ValueIndex};
use ir_base_dialects::attribute::AttributeDict;
use ir_base_dialects::{Dialects, Identifier};

impl<D: Dialects> BasicBlock<D> {
    ghost use Rattle.std.specs.Option.{option_copied, option_map};
    ghost use Rattle.ir_core_records.specs.Meaning.{block_index, block_record};

    /// How many arguments there are.
    pub fn get_num_arguments(&self) -> usize
        ensures { result ≡ length (block_record [] self.now).arguments }
    {
        self.arguments.len()
    }

    /// The argument at an index below their number.
    pub fn get_argument(&self, index: usize) -> Value<D>
        requires { index < length (block_record [] self.now).arguments }
        ensures definer { result.index.definer ≡ Definer.Block (block_index self.now) }
        ensures number { option_map (λ d. d.number) (slice_get (block_record [] self.now).arguments index) ≡ Some result.index.number }
    {
        Value::from_index(ValueIndex {
            definer: Definer::Block(self.index),
            number: self.arguments.at(index).number,
        })
    }

    /// The label, where it has one.
    pub fn label(&self) -> Option<&Identifier>
        ensures { option_copied result ≡ (block_record [] self.now).label }
    {
        self.rest.label.as_ref()
    }

    /// The location.
    pub fn loc(&self) -> &D::Loc
        ensures { result.now ≡ (block_record [] self.now).loc }
    {
        &self.rest.loc
    }

    /// The attributes.
    pub fn attributes(&self) -> &AttributeDict<D>
        ensures { result.now ≡ (block_record [] self.now).attributes }
    {
        &self.rest.attributes
    }
}

impl<D: Dialects> BasicBlockMut<D> {
    /// Gives the block this location.
    pub fn set_loc(&mut self, loc: D::Loc)
        ensures { self.new ≡ record self.old { loc = loc } }
    {
        self.loc = loc;
    }

    /// Gives the block this label, or none.
    pub fn set_label(&mut self, label: Option<Identifier>)
        ensures { self.new ≡ record self.old { label = label } }
    {
        self.label = label;
    }
}
