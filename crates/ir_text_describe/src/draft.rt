//! A tree that is put part by part. The first refusal is kept, and nothing is put behind it: so who puts many parts asks once, where the tree ends.

use ir_text_pieces::{DescribeErr, Description, NameSort, TreeWriter};
use std::alloc::Global;

/// What is put, and why nothing more is put, if so.
#[derive(Drop)]
pub(crate) struct Draft {
    /// What puts the parts. Who calls it asks first whether something was refused, and keeps what comes of it.
    pub(crate) writer: TreeWriter,
    refused: Option<DescribeErr>,
}

impl Draft {
    /// A tree without a part.
    pub(crate) fn new(alloc: Global) -> Result<Self, DescribeErr> {
        let writer = TreeWriter::new(alloc)?;
        Ok(Draft {
            writer,
            refused: None,
        })
    }

    /// The tree, where nothing was refused.
    pub(crate) fn end(self) -> Result<Description, DescribeErr> {
        match self.refused {
            None => Ok(self.writer.description),
            Some(reason) => Err(reason),
        }
    }

    /// Whether something was refused.
    pub(crate) fn is_refused(&self) -> bool {
        self.refused.is_some()
    }

    /// Keeps why a part wasn't put, if it wasn't and nothing was refused before.
    pub(crate) fn keep(&mut self, outcome: Result<(), DescribeErr>) {
        if !self.is_refused() {
            self.refused = outcome.err();
        }
    }

    /// The next number of a value's name.
    pub(crate) fn take_number(&mut self) -> u32 {
        if self.is_refused() {
            return 0;
        }
        match self.writer.names.take_number() {
            Ok(number) => number,
            Err(reason) => {
                self.refused = Some(reason);
                0
            }
        }
    }

    /// Gives a value a name of its own.
    pub(crate) fn name_value(&mut self, value: u64, sort: NameSort) {
        if !self.is_refused() {
            let outcome = self.writer.names.give_value(value, sort);
            self.keep(outcome);
        }
    }

    /// Gives a value the name with this number, and its index among those under it.
    pub(crate) fn name_result(&mut self, value: u64, number: u32, index: usize) {
        if !self.is_refused() {
            let outcome = self.writer.names.give_result(value, number, index);
            self.keep(outcome);
        }
    }

    /// Gives a block a name by its place in its region.
    pub(crate) fn name_block(&mut self, block: u32, place: usize) {
        if !self.is_refused() {
            let outcome = self.writer.names.give_block(block, place);
            self.keep(outcome);
        }
    }

    /// Puts the name of results, of which this is the first.
    pub(crate) fn put_results(&mut self, first: u64, count: usize) {
        if !self.is_refused() {
            let outcome = self.writer.put_results(first, count);
            self.keep(outcome);
        }
    }

    /// Puts a value as an operand.
    pub(crate) fn put_operand(&mut self, value: u64) {
        if !self.is_refused() {
            let outcome = self.writer.put_operand(value);
            self.keep(outcome);
        }
    }

    /// Puts a block as a successor.
    pub(crate) fn put_successor(&mut self, block: u32) {
        if !self.is_refused() {
            let outcome = self.writer.put_successor(block);
            self.keep(outcome);
        }
    }

    /// Puts the label of a block.
    pub(crate) fn put_label(&mut self, block: u32) {
        if !self.is_refused() {
            let outcome = self.writer.put_label(block);
            self.keep(outcome);
        }
    }

    /// Puts a value as an argument.
    pub(crate) fn put_argument(&mut self, value: u64) {
        if !self.is_refused() {
            let outcome = self.writer.put_argument(value);
            self.keep(outcome);
        }
    }

    /// Puts the beginning of a region.
    pub(crate) fn open_region(&mut self) {
        if !self.is_refused() {
            let outcome = self.writer.open_region();
            self.keep(outcome);
        }
    }

    /// Puts the end of a region.
    pub(crate) fn close_region(&mut self) {
        if !self.is_refused() {
            let outcome = self.writer.close_region();
            self.keep(outcome);
        }
    }
}
