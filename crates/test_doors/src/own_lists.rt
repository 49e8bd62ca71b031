//! Lists in a caller's own records, over the door `ir_base` alone: both traits implemented, and the calls made on them.

ghost use Rattle.std.specs.Prelude.{◌≡◌, IfOk, None, OnErr};
ghost use Rattle.ir_base.specs.Arenas.Arena.{fill, IsNew};
ghost use Rattle.ir_base.specs.Arenas.Lists.{no_ends, unlinked};

use ir_base::context::{Arena, CoreError, Ptr};
use ir_base::laws::list_laws::{
    container_changes_keep_lists, empty_arenas, node_changes_keep_lists,
};
use ir_base::linked_list::{
    ContainsLinkedList, Link, LinkedList, insert_at_back, is_linked, iter, unlink,
};
use std::alloc::Global;
use std::marker::Model;
use std::test::Fail;

/// A step of a path.
#[derive(Drop)]
struct Step {
    next: Link,
    prev: Link,
    container: Link,
}

impl LinkedList for Step {
    ghost use Rattle.std.specs.Prelude.{refl};

    ghost links = { λ x. record { next = x.next; prev = x.prev; container = x.container } };

    ghost with_links = { λ x l. record { next = l.next; prev = l.prev; container = l.container } };

    ghost get_put = { λ x l. refl };

    ghost put_put = { λ x l m. refl };

    ghost put_get = { λ x. refl };

    fn get_next(&self) -> Link {
        self.next
    }

    fn get_prev(&self) -> Link {
        self.prev
    }

    fn get_container(&self) -> Link {
        self.container
    }

    fn set_next(&mut self, next: Link) {
        self.next = next;
    }

    fn set_prev(&mut self, prev: Link) {
        self.prev = prev;
    }

    fn set_container(&mut self, container: Link) {
        self.container = container;
    }
}

/// A path: the ends of the list of its steps.
#[derive(Drop)]
struct Route {
    head: Link,
    tail: Link,
}

impl ContainsLinkedList<Step> for Route {
    ghost use Rattle.std.specs.Prelude.{refl};

    ghost ends = { λ x. record { head = x.head; tail = x.tail } };

    ghost with_ends = { λ x e. record { head = e.head; tail = e.tail } };

    ghost get_put = { λ x e. refl };

    ghost put_put = { λ x e f. refl };

    ghost put_get = { λ x. refl };

    fn get_head(&self) -> Link {
        self.head
    }

    fn get_tail(&self) -> Link {
        self.tail
    }

    fn set_head(&mut self, head: Link) {
        self.head = head;
    }

    fn set_tail(&mut self, tail: Link) {
        self.tail = tail;
    }
}

// Stores a record that was made before.
fn store<R: Drop>(arena: &mut Arena<R>, value: R) -> Result<Ptr<R>, CoreError>
    ensures filled { IfOk result (λ ptr. arena.new ≡ fill arena.old ptr.index value) }
    ensures new_id { IfOk result (λ ptr. IsNew arena.old ptr.index) }
    ensures err { OnErr result (arena.new ≡ arena.old) }
{
    arena.insert_with(move |_: Ptr<R>| value)
}

/// Two arenas whose lists are well formed.
#[derive(Drop)]
struct Lists<T: LinkedList, C: ContainsLinkedList<T>> {
    nodes: Arena<T>,
    containers: Arena<C>,
}

impl<T: LinkedList, C: ContainsLinkedList<T>> Model for Lists<T, C> {
    ghost use Rattle.std.specs.Prelude.{ℕ};
    ghost use Rattle.ir_base.specs.Arenas.Arena.{arena_len};

    ghost Value = { ℕ };

    ghost view = { λ a. arena_len a.nodes };

    ghost use Rattle.ir_base.specs.Arenas.Lists.{AreWellFormed, seen};

    ghost invariant = { λ a. AreWellFormed (seen T.links a.nodes) (seen C.ends a.containers) };
}

impl<T: LinkedList, C: ContainsLinkedList<T>> Lists<T, C> {
    fn new(alloc: Global) -> Self {
        empty_arenas::<T, C>();
        Lists {
            nodes: Arena::new(alloc, 8, 1),
            containers: Arena::new(alloc, 8, 1),
        }
    }

    fn add_node(&mut self, node: T) -> Result<Ptr<T>, CoreError>
    where
        T: Drop,
        requires { T.links node ≡ unlinked }
    {
        node_changes_keep_lists::<T, C>();
        store(&mut self.nodes, node)
    }

    fn add_container(&mut self, container: C) -> Result<Ptr<C>, CoreError>
    where
        C: Drop,
        requires { C.ends container ≡ no_ends }
    {
        container_changes_keep_lists::<T, C>();
        store(&mut self.containers, container)
    }

    // Whether the node could be put at the back of the list.
    fn put_back(&mut self, node: Ptr<T>, container: Ptr<C>) -> bool {
        let live = self.nodes.is_live(node) && self.containers.is_live(container);
        if !live || is_linked(&self.nodes, node) {
            return false;
        }
        insert_at_back(&mut self.nodes, &mut self.containers, node, container);
        true
    }

    // Whether the node could be taken out of its list.
    fn take_out(&mut self, node: Ptr<T>) -> bool {
        if !is_linked(&self.nodes, node) {
            return false;
        }
        unlink(&mut self.nodes, &mut self.containers, node);
        true
    }

    // The first and the last of the list, and what stands between two of these that differ.
    fn ends(&self, container: Ptr<C>) -> Option<[Option<Ptr<T>>; 3]> {
        if !self.containers.is_live(container) {
            return None;
        }
        let mut nodes = iter(&self.nodes, &self.containers, container);
        Some([nodes.next(), nodes.next_back(), nodes.next()])
    }
}

fn a_step() -> Step
    ensures { result ≡ record { next = None; prev = None; container = None } }
{
    Step {
        next: Link::none(),
        prev: Link::none(),
        container: Link::none(),
    }
}

fn a_route() -> Route
    ensures { result ≡ record { head = None; tail = None } }
{
    Route {
        head: Link::none(),
        tail: Link::none(),
    }
}

// Two steps go into a route, and the first goes out again. Whether the list tells this each time.
fn goes_in_and_out(routes: &mut Lists<Step, Route>) -> Result<bool, CoreError> {
    let route = routes.add_container(a_route())?;
    let first = routes.add_node(a_step())?;
    let last = routes.add_node(a_step())?;
    let put = routes.put_back(first, route) && routes.put_back(last, route);
    let both = routes.ends(route) == Some([Some(first), Some(last), None]);
    let taken = routes.take_out(first) && !routes.take_out(first);
    Ok(put && both && taken && routes.ends(route) == Some([Some(last), None, None]))
}

#[test]
fn steps_of_a_route(rt: HostRuntime) -> Result<(), Fail> {
    let mut routes = Lists::new(rt.alloc());
    let told = goes_in_and_out(&mut routes)?;
    assert!(rt; told);
    Ok(())
}
