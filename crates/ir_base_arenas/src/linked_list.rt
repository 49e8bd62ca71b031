//! Lists inside records: a node names its neighbours and its container, and a container names the ends of its list.
//!
//! Nodes lie in one arena and containers in another, and they name one another by index. A record may be both, as a block is a node of its region's list and the container of its operations. Well formed means that the links and ends are those of lists, one for each container, in which no node stands twice, and that every other node's links are empty. Each call here asks for well-formed lists and is one edit of them. It keeps them well formed, changes no other list and no other field of any record, and takes no memory. What else may be relied on, `list_laws` says.

ghost use Rattle.std.specs.Prelude.{◌≡◌, ◌≢◌, ◌≤◌, ◌++◌, ◌∷◌, ◌↔◌, [], List, Option, Some, None, IfSome, IsTrue};
ghost use Rattle.ir_model.specs.declared.ids.ArenaIndex.{ArenaIndex};
ghost use Rattle.ir_base_arenas.specs.Arena.{get, IsLiveIn};
ghost use Rattle.ir_base_arenas.specs.Lists.{Links, Ends, unlinked, no_ends, linked, seen, change, with_next, with_prev, with_head, with_tail, unless, rehome, head_or, IsChain, AreLists, AreWellFormed, with_list, IsInList, SameBut};
ghost use Rattle.ir_base_arenas.specs.Walks.{IsListFrom};

use crate::arena_laws::live_ids_have_slots;
use crate::list_iter::Iter;
use crate::{Arena, ArenaIndex, Link, Ptr};

/// A record that can stand in a list. It stands for pliron's `LinkedList`.
///
/// Its links are three `Link`s, and each setter changes the one that it names and nothing else.
pub trait LinkedList {
    ghost links: { Self → Links };

    ghost with_links: { Self → Links → Self };

    /// The node after this one.
    fn get_next(&self) -> Link
        ensures { result ≡ (links self.now).next };
    /// The node before this one.
    fn get_prev(&self) -> Link
        ensures { result ≡ (links self.now).prev };
    /// The container in whose list this node is.
    fn get_container(&self) -> Link
        ensures { result ≡ (links self.now).container };
    /// Sets the node after this one.
    fn set_next(&mut self, next: Link)
        ensures { self.new ≡ with_links self.old (record (links self.old) { next = next }) };
    /// Sets the node before this one.
    fn set_prev(&mut self, prev: Link)
        ensures { self.new ≡ with_links self.old (record (links self.old) { prev = prev }) };
    /// Sets the container in whose list this node is.
    fn set_container(&mut self, container: Link)
        ensures { self.new
            ≡ with_links self.old (record (links self.old) { container = container }) };

    ghost get_put: { (x : Self) (l : Links) → links (with_links x l) ≡ l };

    ghost put_put: { (x : Self) (l m : Links) → with_links (with_links x l) m ≡ with_links x m };

    ghost put_get: { (x : Self) → with_links x (links x) ≡ x };
}

/// A record that contains a list of nodes `T`. It stands for pliron's `ContainsLinkedList`.
///
/// The ends of its list are two `Link`s, and each setter changes the one that it names and nothing else.
pub trait ContainsLinkedList<T> {
    ghost ends: { Self → Ends };

    ghost with_ends: { Self → Ends → Self };

    /// The first node of the list.
    fn get_head(&self) -> Link
        ensures { result ≡ (ends self.now).head };
    /// The last node of the list.
    fn get_tail(&self) -> Link
        ensures { result ≡ (ends self.now).tail };
    /// Sets the first node of the list.
    fn set_head(&mut self, head: Link)
        ensures { self.new ≡ with_ends self.old (record (ends self.old) { head = head }) };
    /// Sets the last node of the list.
    fn set_tail(&mut self, tail: Link)
        ensures { self.new ≡ with_ends self.old (record (ends self.old) { tail = tail }) };

    ghost get_put: { (x : Self) (e : Ends) → ends (with_ends x e) ≡ e };

    ghost put_put: { (x : Self) (e f : Ends) → with_ends (with_ends x e) f ≡ with_ends x f };

    ghost put_get: { (x : Self) → with_ends x (ends x) ≡ x };
}

// A link to a live record: its index has a slot.
#[inline(always)]
fn link_to<T>(records: &Arena<T>, index: ArenaIndex) -> Link
    requires { IsLiveIn records.now index }
    ensures { result ≡ Some index }
{
    live_ids_have_slots::<T>();
    Link::some(index)
}

// Sets the next of the node on the left, or the head of the container where there is none.
fn set_next_of<T: LinkedList, C: ContainsLinkedList<T>>(
    nodes: &mut Arena<T>,
    containers: &mut Arena<C>,
    container: ArenaIndex,
    left: Link,
    next: Link,
)
    requires left_live { IfSome left (λ i. IsLiveIn nodes.old i) }
    requires container_live { IsLiveIn containers.old container }
    ensures links { seen T.links nodes.new ≡ change (with_next next) left (seen T.links nodes.old) }
    ensures ends { seen C.ends containers.new
        ≡ change (with_head next) (unless left container) (seen C.ends containers.old) }
    ensures nodes_rest { SameBut (λ x. T.with_links x unlinked) nodes.old nodes.new }
    ensures containers_rest { SameBut (λ x. C.with_ends x no_ends) containers.old containers.new }
{
    match left.get() {
        Some(left) => nodes.at_mut(Ptr::from_index(left)).set_next(next),
        None => containers.at_mut(Ptr::from_index(container)).set_head(next),
    }
}

// Sets the previous of the node on the right, or the tail of the container where there is none.
fn set_prev_of<T: LinkedList, C: ContainsLinkedList<T>>(
    nodes: &mut Arena<T>,
    containers: &mut Arena<C>,
    container: ArenaIndex,
    right: Link,
    prev: Link,
)
    requires right_live { IfSome right (λ i. IsLiveIn nodes.old i) }
    requires container_live { IsLiveIn containers.old container }
    ensures links { seen T.links nodes.new
        ≡ change (with_prev prev) right (seen T.links nodes.old) }
    ensures ends { seen C.ends containers.new
        ≡ change (with_tail prev) (unless right container) (seen C.ends containers.old) }
    ensures nodes_rest { SameBut (λ x. T.with_links x unlinked) nodes.old nodes.new }
    ensures containers_rest { SameBut (λ x. C.with_ends x no_ends) containers.old containers.new }
{
    match right.get() {
        Some(right) => nodes.at_mut(Ptr::from_index(right)).set_prev(prev),
        None => containers.at_mut(Ptr::from_index(container)).set_tail(prev),
    }
}

// Sets all links of a node.
#[inline(always)]
fn set_links<T: LinkedList>(
    nodes: &mut Arena<T>,
    node: ArenaIndex,
    next: Link,
    prev: Link,
    container: Link,
)
    requires { IsLiveIn nodes.old node }
    ensures links { seen T.links nodes.new
        ≡ change (λ _. record { next = next; prev = prev; container = container }) (Some node) (seen T.links nodes.old) }
    ensures rest { SameBut (λ x. T.with_links x unlinked) nodes.old nodes.new }
{
    let record = nodes.at_mut(Ptr::from_index(node));
    record.set_next(next);
    record.set_prev(prev);
    record.set_container(container);
}

// Puts an unlinked node between two neighbours, or at an end of the container where there is none.
#[inline(always)]
fn link_between<T: LinkedList, C: ContainsLinkedList<T>>(
    nodes: &mut Arena<T>,
    containers: &mut Arena<C>,
    node: ArenaIndex,
    container: ArenaIndex,
    left: Link,
    right: Link,
)
    requires node_live { IsLiveIn nodes.old node }
    requires left_live { IfSome left (λ i. IsLiveIn nodes.old i) }
    requires right_live { IfSome right (λ i. IsLiveIn nodes.old i) }
    requires container_live { IsLiveIn containers.old container }
    ensures links { seen T.links nodes.new
        ≡ change (λ _. linked left right container) (Some node)
        (change (with_next (Some node)) left
        (change (with_prev (Some node)) right (seen T.links nodes.old))) }
    ensures ends { seen C.ends containers.new
        ≡ change (with_head (Some node)) (unless left container)
        (change (with_tail (Some node)) (unless right container) (seen C.ends containers.old)) }
    ensures nodes_rest { SameBut (λ x. T.with_links x unlinked) nodes.old nodes.new }
    ensures containers_rest { SameBut (λ x. C.with_ends x no_ends) containers.old containers.new }
{
    let here = link_to(nodes, node);
    let home = link_to(containers, container);
    set_prev_of(nodes, containers, container, right, here);
    set_next_of(nodes, containers, container, left, here);
    set_links(nodes, node, right, left, home);
}

/// Puts an unlinked node at the front of a container's list. It stands for pliron's `insert_at_front`.
///
/// It asks for a live node that is in no list and a live container, which `is_linked` and `Arena::is_live` test.
#[inline(always)]
pub fn insert_at_front<T: LinkedList, C: ContainsLinkedList<T>>(
    nodes: &mut Arena<T>,
    containers: &mut Arena<C>,
    node: Ptr<T>,
    container: Ptr<C>,
)
    requires well_formed { AreWellFormed (seen T.links nodes.old) (seen C.ends containers.old) }
    requires node_live { IsLiveIn nodes.old node.index }
    requires node_unlinked { ¬ IsInList (seen T.links nodes.old) node.index }
    requires container_live { IsLiveIn containers.old container.index }
    ensures lists { (lists : ArenaIndex → List ArenaIndex)
        → AreLists (seen T.links nodes.old) (seen C.ends containers.old) lists
        → AreLists (seen T.links nodes.new) (seen C.ends containers.new)
        (with_list lists container.index (node.index ∷ lists container.index)) }
    ensures well_formed { AreWellFormed (seen T.links nodes.new) (seen C.ends containers.new) }
    ensures nodes_rest { SameBut (λ x. T.with_links x unlinked) nodes.old nodes.new }
    ensures containers_rest { SameBut (λ x. C.with_ends x no_ends) containers.old containers.new }
{
    let head = containers.at(container).get_head();
    let none = Link::none();
    link_between(nodes, containers, node.index, container.index, none, head);
}

/// Puts an unlinked node at the back of a container's list. It stands for pliron's `insert_at_back`.
///
/// It asks for a live node that is in no list and a live container, which `is_linked` and `Arena::is_live` test.
#[inline(always)]
pub fn insert_at_back<T: LinkedList, C: ContainsLinkedList<T>>(
    nodes: &mut Arena<T>,
    containers: &mut Arena<C>,
    node: Ptr<T>,
    container: Ptr<C>,
)
    requires well_formed { AreWellFormed (seen T.links nodes.old) (seen C.ends containers.old) }
    requires node_live { IsLiveIn nodes.old node.index }
    requires node_unlinked { ¬ IsInList (seen T.links nodes.old) node.index }
    requires container_live { IsLiveIn containers.old container.index }
    ensures lists { (lists : ArenaIndex → List ArenaIndex)
        → AreLists (seen T.links nodes.old) (seen C.ends containers.old) lists
        → AreLists (seen T.links nodes.new) (seen C.ends containers.new)
        (with_list lists container.index (lists container.index ++ node.index ∷ [])) }
    ensures well_formed { AreWellFormed (seen T.links nodes.new) (seen C.ends containers.new) }
    ensures nodes_rest { SameBut (λ x. T.with_links x unlinked) nodes.old nodes.new }
    ensures containers_rest { SameBut (λ x. C.with_ends x no_ends) containers.old containers.new }
{
    let tail = containers.at(container).get_tail();
    let none = Link::none();
    link_between(nodes, containers, node.index, container.index, tail, none);
}

/// Puts an unlinked node right after a linked one. It stands for pliron's `insert_after`.
///
/// It asks for a live node that is in no list and a mark that is in one, which `is_linked` and `Arena::is_live` test.
#[inline(always)]
pub fn insert_after<T: LinkedList, C: ContainsLinkedList<T>>(
    nodes: &mut Arena<T>,
    containers: &mut Arena<C>,
    node: Ptr<T>,
    mark: Ptr<T>,
)
    requires well_formed { AreWellFormed (seen T.links nodes.old) (seen C.ends containers.old) }
    requires node_live { IsLiveIn nodes.old node.index }
    requires node_unlinked { ¬ IsInList (seen T.links nodes.old) node.index }
    requires mark_linked { IsInList (seen T.links nodes.old) mark.index }
    ensures lists { (lists : ArenaIndex → List ArenaIndex) (c : ArenaIndex) (a b : List ArenaIndex)
        → AreLists (seen T.links nodes.old) (seen C.ends containers.old) lists
        → lists c ≡ a ++ mark.index ∷ b
        → AreLists (seen T.links nodes.new) (seen C.ends containers.new)
        (with_list lists c (a ++ mark.index ∷ node.index ∷ b)) }
    ensures well_formed { AreWellFormed (seen T.links nodes.new) (seen C.ends containers.new) }
    ensures nodes_rest { SameBut (λ x. T.with_links x unlinked) nodes.old nodes.new }
    ensures containers_rest { SameBut (λ x. C.with_ends x no_ends) containers.old containers.new }
{
    let place = nodes.at(mark);
    let after = place.get_next();
    let container = place.get_container().get().unwrap();
    let here = link_to(nodes, mark.index);
    link_between(nodes, containers, node.index, container, here, after);
}

/// Puts an unlinked node right before a linked one. It stands for pliron's `insert_before`.
///
/// It asks for a live node that is in no list and a mark that is in one, which `is_linked` and `Arena::is_live` test.
#[inline(always)]
pub fn insert_before<T: LinkedList, C: ContainsLinkedList<T>>(
    nodes: &mut Arena<T>,
    containers: &mut Arena<C>,
    node: Ptr<T>,
    mark: Ptr<T>,
)
    requires well_formed { AreWellFormed (seen T.links nodes.old) (seen C.ends containers.old) }
    requires node_live { IsLiveIn nodes.old node.index }
    requires node_unlinked { ¬ IsInList (seen T.links nodes.old) node.index }
    requires mark_linked { IsInList (seen T.links nodes.old) mark.index }
    ensures lists { (lists : ArenaIndex → List ArenaIndex) (c : ArenaIndex) (a b : List ArenaIndex)
        → AreLists (seen T.links nodes.old) (seen C.ends containers.old) lists
        → lists c ≡ a ++ mark.index ∷ b
        → AreLists (seen T.links nodes.new) (seen C.ends containers.new)
        (with_list lists c (a ++ node.index ∷ mark.index ∷ b)) }
    ensures well_formed { AreWellFormed (seen T.links nodes.new) (seen C.ends containers.new) }
    ensures nodes_rest { SameBut (λ x. T.with_links x unlinked) nodes.old nodes.new }
    ensures containers_rest { SameBut (λ x. C.with_ends x no_ends) containers.old containers.new }
{
    let place = nodes.at(mark);
    let before = place.get_prev();
    let container = place.get_container().get().unwrap();
    let here = link_to(nodes, mark.index);
    link_between(nodes, containers, node.index, container, before, here);
}

/// Takes a linked node out of its list, and clears its links. It stands for pliron's `unlink`.
///
/// It asks for a node that is in a list, which `is_linked` tests.
#[inline(always)]
pub fn unlink<T: LinkedList, C: ContainsLinkedList<T>>(
    nodes: &mut Arena<T>,
    containers: &mut Arena<C>,
    node: Ptr<T>,
)
    requires well_formed { AreWellFormed (seen T.links nodes.old) (seen C.ends containers.old) }
    requires node_linked { IsInList (seen T.links nodes.old) node.index }
    ensures lists { (lists : ArenaIndex → List ArenaIndex) (c : ArenaIndex) (a b : List ArenaIndex)
        → AreLists (seen T.links nodes.old) (seen C.ends containers.old) lists
        → lists c ≡ a ++ node.index ∷ b
        → AreLists (seen T.links nodes.new) (seen C.ends containers.new)
        (with_list lists c (a ++ b)) }
    ensures well_formed { AreWellFormed (seen T.links nodes.new) (seen C.ends containers.new) }
    ensures nodes_rest { SameBut (λ x. T.with_links x unlinked) nodes.old nodes.new }
    ensures containers_rest { SameBut (λ x. C.with_ends x no_ends) containers.old containers.new }
{
    let place = nodes.at(node);
    let next = place.get_next();
    let prev = place.get_prev();
    let container = place.get_container().get().unwrap();
    set_prev_of(nodes, containers, container, next, prev);
    set_next_of(nodes, containers, container, prev, next);
    let none = Link::none();
    set_links(nodes, node.index, none, none, none);
}

// Gives the nodes from `first` on another container.
fn set_containers<T: LinkedList>(nodes: &mut Arena<T>, first: Link, container: ArenaIndex)
    requires list { IsListFrom (seen T.links nodes.old) first container }
    requires slot { 1 ≤ container.slot }
    ensures moved { (owner : ArenaIndex) (before : Option ArenaIndex) (list : List ArenaIndex)
        → IsChain (seen T.links nodes.old) owner before list None → first ≡ head_or None list
        → seen T.links nodes.new ≡ rehome container list (seen T.links nodes.old) }
    ensures rest { SameBut (λ x. T.with_links x unlinked) nodes.old nodes.new }
{
    let home = Link::some(container);
    let mut current = first;
    while let Some(node) = current.get() {
        let record = nodes.at_mut(Ptr::from_index(node));
        record.set_container(home);
        current = record.get_next();
    }
}

// Sets both ends of a container.
fn set_ends<T, C: ContainsLinkedList<T>>(
    containers: &mut Arena<C>,
    container: ArenaIndex,
    head: Link,
    tail: Link,
)
    requires { IsLiveIn containers.old container }
    ensures ends { seen C.ends containers.new
        ≡ change (λ _. record { head = head; tail = tail }) (Some container) (seen C.ends containers.old) }
    ensures rest { SameBut (λ x. C.with_ends x no_ends) containers.old containers.new }
{
    let record = containers.at_mut(Ptr::from_index(container));
    record.set_head(head);
    record.set_tail(tail);
}

/// Moves the nodes of the donor to the back of the donee's list, and leaves the donor empty. It stands for pliron's `append_linked_list`.
///
/// The ends are joined once, and one walk over the moved nodes gives them their container. It asks for two live containers that differ, which `Arena::is_live` and their indices tell.
pub fn append_linked_list<T: LinkedList, C: ContainsLinkedList<T>>(
    nodes: &mut Arena<T>,
    containers: &mut Arena<C>,
    donee: Ptr<C>,
    donor: Ptr<C>,
)
    requires well_formed { AreWellFormed (seen T.links nodes.old) (seen C.ends containers.old) }
    requires donee_live { IsLiveIn containers.old donee.index }
    requires donor_live { IsLiveIn containers.old donor.index }
    requires two { donee.index ≢ donor.index }
    ensures lists { (lists : ArenaIndex → List ArenaIndex)
        → AreLists (seen T.links nodes.old) (seen C.ends containers.old) lists
        → AreLists (seen T.links nodes.new) (seen C.ends containers.new)
        (with_list (with_list lists donee.index (lists donee.index ++ lists donor.index)) donor.index []) }
    ensures well_formed { AreWellFormed (seen T.links nodes.new) (seen C.ends containers.new) }
    ensures nodes_rest { SameBut (λ x. T.with_links x unlinked) nodes.old nodes.new }
    ensures containers_rest { SameBut (λ x. C.with_ends x no_ends) containers.old containers.new }
{
    let from = containers.at(donor);
    let first = from.get_head();
    let last = from.get_tail();
    let to = containers.at(donee);
    let head = to.get_head();
    let tail = to.get_tail();
    set_prev_of(nodes, containers, donee.index, first, tail);
    set_next_of(nodes, containers, donee.index, tail, first);
    set_ends(containers, donee.index, head.or(first), last.or(tail));
    let none = Link::none();
    set_ends(containers, donor.index, none, none);
    set_containers(nodes, first, donee.index);
}

/// Whether the node is in a list. It is not where the handle is dead. It stands for pliron's `is_linked`.
pub fn is_linked<T: LinkedList>(nodes: &Arena<T>, node: Ptr<T>) -> bool
    ensures { IsTrue result ↔ IsInList (seen T.links nodes.now) node.index }
{
    match nodes.get(node) {
        Some(record) => record.get_container().get().is_some(),
        None => false,
    }
}

/// The nodes of a container's list, from both ends. It stands for pliron's `iter`.
///
/// It asks for a live container, which `Arena::is_live` tests.
pub fn iter<'a, T: LinkedList, C: ContainsLinkedList<T>>(
    nodes: &'a Arena<T>,
    containers: &Arena<C>,
    container: Ptr<C>,
) -> Iter<'a, T>
    requires well_formed { AreWellFormed (seen T.links nodes.now) (seen C.ends containers.now) }
    requires container_live { IsLiveIn containers.now container.index }
    ensures { (lists : ArenaIndex → List ArenaIndex)
        → AreLists (seen T.links nodes.now) (seen C.ends containers.now) lists
        → result ≡ lists container.index }
{
    let record = containers.at(container);
    Iter::between(nodes, record.get_head(), record.get_tail())
}
