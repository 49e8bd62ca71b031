//! How records are taken out of their arenas, with all that they own.

use crate::record::{BasicBlock, BasicBlockMut, Operation, OperationMut, Region};
use ir_base_dialects::{Dialects, TakeOut, unknown_loc};
use std::mem::replace;

impl<D: Dialects> TakeOut for Operation<D> {
    #[inline(always)]
    fn take_out(&mut self) -> Operation<D> {
        Operation {
            index: self.index,
            kind: self.kind,
            results: self.results.take(),
            operands: self.operands.take(),
            successors: self.successors.take(),
            regions: self.regions.take(),
            next: self.next,
            prev: self.prev,
            parent: self.parent,
            rest: OperationMut {
                attributes: self.rest.attributes.take(),
                loc: replace(&mut self.rest.loc, unknown_loc::<D>()),
            },
        }
    }
}

impl<D: Dialects> TakeOut for BasicBlock<D> {
    #[inline(always)]
    fn take_out(&mut self) -> BasicBlock<D> {
        BasicBlock {
            index: self.index,
            arguments: self.arguments.take(),
            uses: self.uses.take(),
            next: self.next,
            prev: self.prev,
            parent: self.parent,
            ops_list: self.ops_list,
            rest: BasicBlockMut {
                attributes: self.rest.attributes.take(),
                label: self.rest.label.take(),
                loc: replace(&mut self.rest.loc, unknown_loc::<D>()),
            },
        }
    }
}

impl TakeOut for Region {
    #[inline(always)]
    fn take_out(&mut self) -> Region {
        Region {
            index: self.index,
            parent: self.parent,
            first: self.first,
            last: self.last,
            place: self.place,
        }
    }
}
