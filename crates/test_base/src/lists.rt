//! The list functions over a node and a container of the tests' own, and over a record that is both.

ghost use Rattle.std.specs.Prelude.{◌≡◌, None};
ghost use Rattle.ir_base_arenas.specs.Lists.{unlinked, no_ends};

use crate::storing::{in_slot, store};
use ir_base_arenas::linked_list::{
    ContainsLinkedList, LinkedList, append_linked_list, insert_after, insert_at_back,
    insert_at_front, insert_before, is_linked, iter, unlink,
};
use ir_base_arenas::list_laws::{
    container_changes_keep_lists, empty_arenas, node_changes_keep_lists,
};
use ir_base_arenas::{Arena, CoreError, Iter, Link, Ptr};
use std::alloc::Global;
use std::marker::Model;
use std::mem::size_of;
use std::process::Abort;

/// A node, with a payload.
#[derive(Drop)]
pub(crate) struct Node {
    payload: u64,
    next: Link,
    prev: Link,
    container: Link,
}

// Beside the payload, the three links take 24 bytes.
const _: () = prove!(size_of::<Node>() == size_of::<u64>() + 24);

impl LinkedList for Node {
    ghost use Rattle.std.specs.Prelude.{refl};

    ghost links = { λ x. record { next = x.next; prev = x.prev; container = x.container } };

    ghost with_links = { λ x l. record x { next = l.next; prev = l.prev; container = l.container } };

    ghost get_put = { λ x l. refl };

    ghost put_put = { λ x l m. refl };

    ghost put_get = { λ x. refl };

    fn get_next(&self) -> Link {
        self.next
    }

    fn get_prev(&self) -> Link {
        self.prev
    }

    fn get_container(&self) -> Link {
        self.container
    }

    fn set_next(&mut self, next: Link) {
        self.next = next;
    }

    fn set_prev(&mut self, prev: Link) {
        self.prev = prev;
    }

    fn set_container(&mut self, container: Link) {
        self.container = container;
    }
}

/// A container of nodes that is itself a node, as a block is.
#[derive(Drop)]
pub(crate) struct Part {
    name: u64,
    head: Link,
    tail: Link,
    next: Link,
    prev: Link,
    container: Link,
}

impl LinkedList for Part {
    ghost use Rattle.std.specs.Prelude.{refl};

    ghost links = { λ x. record { next = x.next; prev = x.prev; container = x.container } };

    ghost with_links = { λ x l. record x { next = l.next; prev = l.prev; container = l.container } };

    ghost get_put = { λ x l. refl };

    ghost put_put = { λ x l m. refl };

    ghost put_get = { λ x. refl };

    fn get_next(&self) -> Link {
        self.next
    }

    fn get_prev(&self) -> Link {
        self.prev
    }

    fn get_container(&self) -> Link {
        self.container
    }

    fn set_next(&mut self, next: Link) {
        self.next = next;
    }

    fn set_prev(&mut self, prev: Link) {
        self.prev = prev;
    }

    fn set_container(&mut self, container: Link) {
        self.container = container;
    }
}

impl ContainsLinkedList<Node> for Part {
    ghost use Rattle.std.specs.Prelude.{refl};

    ghost ends = { λ x. record { head = x.head; tail = x.tail } };

    ghost with_ends = { λ x e. record x { head = e.head; tail = e.tail } };

    ghost get_put = { λ x e. refl };

    ghost put_put = { λ x e f. refl };

    ghost put_get = { λ x. refl };

    fn get_head(&self) -> Link {
        self.head
    }

    fn get_tail(&self) -> Link {
        self.tail
    }

    fn set_head(&mut self, head: Link) {
        self.head = head;
    }

    fn set_tail(&mut self, tail: Link) {
        self.tail = tail;
    }
}

/// A container of parts.
#[derive(Drop)]
pub(crate) struct Root {
    head: Link,
    tail: Link,
    name: u64,
}

impl ContainsLinkedList<Part> for Root {
    ghost use Rattle.std.specs.Prelude.{refl};

    ghost ends = { λ x. record { head = x.head; tail = x.tail } };

    ghost with_ends = { λ x e. record x { head = e.head; tail = e.tail } };

    ghost get_put = { λ x e. refl };

    ghost put_put = { λ x e f. refl };

    ghost put_get = { λ x. refl };

    fn get_head(&self) -> Link {
        self.head
    }

    fn get_tail(&self) -> Link {
        self.tail
    }

    fn set_head(&mut self, head: Link) {
        self.head = head;
    }

    fn set_tail(&mut self, tail: Link) {
        self.tail = tail;
    }
}

/// A step of a row. Nodes and containers are told by the slots that they are stored in, from 1.
#[derive(Clone, Copy, Debug, Drop)]
pub(crate) enum Step {
    /// Puts a node at the front of a container.
    Front(u32, u32),
    /// Puts a node at the back of a container.
    Back(u32, u32),
    /// Puts a node after another one.
    After(u32, u32),
    /// Puts a node before another one.
    Before(u32, u32),
    /// Takes a node out of its list.
    Out(u32),
    /// Puts the nodes of the second container behind those of the first.
    Join(u32, u32),
}

/// Two arenas whose lists are well formed. Its calls answer false where a condition doesn't hold, and then change nothing.
#[derive(Drop)]
pub(crate) struct Lists<T: LinkedList, C: ContainsLinkedList<T>> {
    nodes: Arena<T>,
    containers: Arena<C>,
}

impl<T: LinkedList, C: ContainsLinkedList<T>> Model for Lists<T, C> {
    ghost use Rattle.std.specs.Prelude.{ℕ};
    ghost use Rattle.ir_base_arenas.specs.Arena.{arena_len};

    ghost Value = { ℕ };

    ghost view = { λ a. arena_len a.nodes };

    ghost use Rattle.ir_base_arenas.specs.Lists.{seen, AreWellFormed};

    ghost invariant = { λ a. AreWellFormed (seen T.links a.nodes) (seen C.ends a.containers) };
}

impl<T: LinkedList, C: ContainsLinkedList<T>> Lists<T, C> {
    /// No nodes, and no containers.
    pub(crate) fn new(alloc: Global) -> Self {
        empty_arenas::<T, C>();
        Lists {
            nodes: Arena::new(alloc, 100, 100),
            containers: Arena::new(alloc, 100, 100),
        }
    }

    /// Stores an unlinked node.
    pub(crate) fn add_node(&mut self, node: T) -> Result<Ptr<T>, CoreError>
    where
        T: Drop,
        requires { T.links node ≡ unlinked }
    {
        node_changes_keep_lists::<T, C>();
        store(&mut self.nodes, node)
    }

    /// Stores a container with no nodes.
    pub(crate) fn add_container(&mut self, container: C) -> Result<Ptr<C>, CoreError>
    where
        C: Drop,
        requires { C.ends container ≡ no_ends }
    {
        container_changes_keep_lists::<T, C>();
        store(&mut self.containers, container)
    }

    fn put_front(&mut self, node: Ptr<T>, container: Ptr<C>) -> bool {
        let live = self.nodes.is_live(node) && self.containers.is_live(container);
        if !live || is_linked(&self.nodes, node) {
            return false;
        }
        insert_at_front(&mut self.nodes, &mut self.containers, node, container);
        true
    }

    fn put_back(&mut self, node: Ptr<T>, container: Ptr<C>) -> bool {
        let live = self.nodes.is_live(node) && self.containers.is_live(container);
        if !live || is_linked(&self.nodes, node) {
            return false;
        }
        insert_at_back(&mut self.nodes, &mut self.containers, node, container);
        true
    }

    fn put_after(&mut self, node: Ptr<T>, mark: Ptr<T>) -> bool {
        let free = self.nodes.is_live(node) && !is_linked(&self.nodes, node);
        if !free || !is_linked(&self.nodes, mark) {
            return false;
        }
        insert_after(&mut self.nodes, &mut self.containers, node, mark);
        true
    }

    fn put_before(&mut self, node: Ptr<T>, mark: Ptr<T>) -> bool {
        let free = self.nodes.is_live(node) && !is_linked(&self.nodes, node);
        if !free || !is_linked(&self.nodes, mark) {
            return false;
        }
        insert_before(&mut self.nodes, &mut self.containers, node, mark);
        true
    }

    fn take_out(&mut self, node: Ptr<T>) -> bool {
        if !is_linked(&self.nodes, node) {
            return false;
        }
        unlink(&mut self.nodes, &mut self.containers, node);
        true
    }

    fn append(&mut self, donee: Ptr<C>, donor: Ptr<C>) -> bool {
        let live = self.containers.is_live(donee) && self.containers.is_live(donor);
        if !live || donee.index == donor.index {
            return false;
        }
        append_linked_list(&mut self.nodes, &mut self.containers, donee, donor);
        true
    }

    /// Carries a step out, and answers whether its condition held.
    pub(crate) fn carry_out(&mut self, step: Step) -> bool {
        match step {
            Step::Front(node, container) => self.put_front(in_slot(node), in_slot(container)),
            Step::Back(node, container) => self.put_back(in_slot(node), in_slot(container)),
            Step::After(node, mark) => self.put_after(in_slot(node), in_slot(mark)),
            Step::Before(node, mark) => self.put_before(in_slot(node), in_slot(mark)),
            Step::Out(node) => self.take_out(in_slot(node)),
            Step::Join(donee, donor) => self.append(in_slot(donee), in_slot(donor)),
        }
    }

    /// Whether the container's list is this one from both ends, and each of its nodes names the container. It is not where the container is dead.
    pub(crate) fn is_list(&self, container: Ptr<C>, expected: &[u32]) -> bool {
        if !self.containers.is_live(container) {
            return false;
        }
        let forward = iter(&self.nodes, &self.containers, container);
        let backward = iter(&self.nodes, &self.containers, container);
        self.gives(forward, container, expected) && gives_backward(backward, expected)
    }

    // Whether the nodes from the front are these, and each names the container.
    fn gives(&self, mut nodes: Iter<'_, T>, container: Ptr<C>, expected: &[u32]) -> bool {
        for slot in expected {
            if nodes.next() != Some(in_slot(*slot)) || !self.is_within(in_slot(*slot), container) {
                return false;
            }
        }
        nodes.next().is_none()
    }

    // Whether a live node names the container.
    fn is_within(&self, node: Ptr<T>, container: Ptr<C>) -> bool {
        match self.nodes.get(node) {
            Some(record) => record.get_container().get() == Some(container.index),
            None => false,
        }
    }

    /// Whether a node is in a list.
    pub(crate) fn is_linked(&self, node: Ptr<T>) -> bool {
        is_linked(&self.nodes, node)
    }

    /// Whether a live node has no links.
    pub(crate) fn has_no_links(&self, node: Ptr<T>) -> bool {
        match self.nodes.get(node) {
            Some(record) => {
                record.get_next().get().is_none()
                    && record.get_prev().get().is_none()
                    && record.get_container().get().is_none()
            }
            None => false,
        }
    }

    /// Whether front and back by turns give these nodes, the front first, and then none from either end, and a copy, which goes on by itself, gives the second of them from the back.
    pub(crate) fn is_read_by_turns(
        &self,
        rt: &impl Abort,
        container: Ptr<C>,
        [first, last, middle]: [u32; 3],
    ) -> bool {
        if !self.containers.is_live(container) {
            return false;
        }
        let mut both = iter(&self.nodes, &self.containers, container);
        let mut copy = both.clone().expect(rt, "memory");
        let by_turns = [both.next(), both.next_back(), both.next()];
        let ended = both.next().is_none() && both.next_back().is_none();
        let given = [
            Some(in_slot(first)),
            Some(in_slot(last)),
            Some(in_slot(middle)),
        ];
        ended && by_turns == given && copy.next_back() == given[1]
    }
}

// Whether the nodes from the back are these.
fn gives_backward<T: LinkedList>(mut nodes: Iter<'_, T>, expected: &[u32]) -> bool {
    for slot in expected.iter().rev() {
        if nodes.next_back() != Some(in_slot(*slot)) {
            return false;
        }
    }
    nodes.next_back().is_none()
}

/// A node without links.
pub(crate) fn a_node(payload: u64) -> Node
    ensures { result ≡ record { payload = payload; next = None; prev = None; container = None } }
{
    Node {
        payload,
        next: Link::none(),
        prev: Link::none(),
        container: Link::none(),
    }
}

/// A part without links and nodes.
pub(crate) fn a_part(name: u64) -> Part
    ensures { result ≡ record { name = name; head = None; tail = None; next = None; prev = None; container = None } }
{
    Part {
        name,
        head: Link::none(),
        tail: Link::none(),
        next: Link::none(),
        prev: Link::none(),
        container: Link::none(),
    }
}

/// A root without parts.
pub(crate) fn a_root(name: u64) -> Root
    ensures { result ≡ record { head = None; tail = None; name = name } }
{
    Root {
        head: Link::none(),
        tail: Link::none(),
        name,
    }
}

// What a live part has beside its links and ends.
fn name_of(parts: &Arena<Part>, part: Ptr<Part>) -> Option<u64> {
    Some(parts.get(part)?.name)
}

impl Lists<Node, Part> {
    /// What a live node has beside its links.
    pub(crate) fn payload(&self, node: Ptr<Node>) -> Option<u64> {
        Some(self.nodes.get(node)?.payload)
    }

    /// What a live part has beside its links and ends.
    pub(crate) fn name(&self, part: Ptr<Part>) -> Option<u64> {
        name_of(&self.containers, part)
    }
}

// What the first root has beside its ends, where it is live.
fn root_name(roots: &Arena<Root>) -> Option<u64> {
    Some(roots.get(in_slot(1))?.name)
}

impl Lists<Part, Root> {
    /// What the first root and the first two parts have beside their links and ends, each where it is live.
    pub(crate) fn names(&self) -> (Option<u64>, Option<u64>, Option<u64>) {
        let root = root_name(&self.containers);
        (
            root,
            name_of(&self.nodes, in_slot(1)),
            name_of(&self.nodes, in_slot(2)),
        )
    }
}
