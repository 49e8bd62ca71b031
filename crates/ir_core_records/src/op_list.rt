//! The lists of operations in blocks: operations as nodes, and blocks as their containers.

use crate::record::{BasicBlock, Operation};
use ir_base_arenas::Link;
use ir_base_dialects::Dialects;
use ir_base_dialects::linked_list::{ContainsLinkedList, LinkedList};

impl<D: Dialects> LinkedList for Operation<D> {
    ghost use Rattle.std.specs.Prelude.{refl};
    ghost use Rattle.ir_core_records.specs.Tree.{op_links};

    ghost links = { op_links };

    ghost with_links = { λ x l. record x { next = l.next; prev = l.prev; parent = l.container } };

    ghost get_put = { λ x l. refl };

    ghost put_put = { λ x l m. refl };

    ghost put_get = { λ x. refl };

    fn get_next(&self) -> Link {
        self.next
    }

    fn get_prev(&self) -> Link {
        self.prev
    }

    fn get_container(&self) -> Link {
        self.parent
    }

    fn set_next(&mut self, next: Link) {
        self.next = next;
    }

    fn set_prev(&mut self, prev: Link) {
        self.prev = prev;
    }

    fn set_container(&mut self, container: Link) {
        self.parent = container;
    }
}

impl<D: Dialects> ContainsLinkedList<Operation<D>> for BasicBlock<D> {
    ghost use Rattle.std.specs.Prelude.{refl};
    ghost use Rattle.ir_core_records.specs.Tree.{block_ends};

    ghost ends = { block_ends };

    ghost with_ends = { λ x e. record x { ops_list = record { first = e.head; last = e.tail } } };

    ghost get_put = { λ x e. refl };

    ghost put_put = { λ x e f. refl };

    ghost put_get = { λ x. refl };

    fn get_head(&self) -> Link {
        self.ops_list.first
    }

    fn get_tail(&self) -> Link {
        self.ops_list.last
    }

    fn set_head(&mut self, head: Link) {
        self.ops_list.first = head;
    }

    fn set_tail(&mut self, tail: Link) {
        self.ops_list.last = tail;
    }
}
