//! What callers of the list functions may rely on, as contracts of functions that do nothing: what the lists are, which changes of the arenas keep them, and what an edit leaves.

ghost use Rattle.std.specs.Prelude.{◌≡◌, ◌↔◌, ◌++◌, ◌∷◌, [], ℕ, List, Option, Some, None};
ghost use Rattle.ir_model.specs.declared.ids.ArenaIndex.{ArenaIndex};
ghost use Rattle.ir_base_arenas.specs.Arena.{Arena as Records, get, fill, cut, empty, IsLiveIn, IsNew};
ghost use Rattle.ir_model.specs.Ids.{Distinct};
ghost use Rattle.ir_model.specs.Nesting.{In};
ghost use Rattle.ir_base_arenas.specs.Lists.{Links, Ends, unlinked, linked, no_ends, seen, head_or, last_or, ends_of, AreLists, container_of, IsInList, SameBut, SameIds};
ghost use Rattle.ir_base_arenas.specs.Walks.{list_in};

use crate::linked_list::{ContainsLinkedList, LinkedList};

/// The lists of empty arenas are well formed, and empty.
pub fn empty_arenas<T: LinkedList, C: ContainsLinkedList<T>>()
    ensures { (limit last other_limit other_last : ℕ)
        → AreLists (seen T.links (empty limit last)) (seen C.ends (empty other_limit other_last)) (λ _. []) }
{}

/// The arenas determine their lists.
pub fn lists_are_one<T: LinkedList, C: ContainsLinkedList<T>>()
    ensures { (nodes : Records T) (containers : Records C) (lists : ArenaIndex → List ArenaIndex)
        → AreLists (seen T.links nodes) (seen C.ends containers) lists → (c : ArenaIndex)
        → lists c ≡ list_in T.links C.ends nodes containers c }
{}

/// A node's container is the one in whose list it stands, it is linked where it stands in a list, no node stands twice, and what stands in a list is live.
pub fn lists_hold_nodes<T: LinkedList, C: ContainsLinkedList<T>>()
    ensures container { (nodes : Records T) (containers : Records C) (lists : ArenaIndex → List ArenaIndex)
        → AreLists (seen T.links nodes) (seen C.ends containers) lists → (c x : ArenaIndex)
        → (container_of (seen T.links nodes) x ≡ Some c) ↔ In x (lists c) }
    ensures linked { (nodes : Records T) (containers : Records C) (lists : ArenaIndex → List ArenaIndex)
        → AreLists (seen T.links nodes) (seen C.ends containers) lists → (x : ArenaIndex)
        → IsInList (seen T.links nodes) x ↔ ((c : ArenaIndex) × In x (lists c)) }
    ensures apart { (nodes : Records T) (containers : Records C) (lists : ArenaIndex → List ArenaIndex)
        → AreLists (seen T.links nodes) (seen C.ends containers) lists → (c : ArenaIndex)
        → Distinct (lists c) }
    ensures live { (nodes : Records T) (containers : Records C) (lists : ArenaIndex → List ArenaIndex)
        → AreLists (seen T.links nodes) (seen C.ends containers) lists → (c x : ArenaIndex)
        → In x (lists c)
        → IsLiveIn nodes x × IsLiveIn containers c }
{}

/// The links of a node in a list are its neighbours there, and the ends of a container those of its list.
pub fn links_are_neighbours<T: LinkedList, C: ContainsLinkedList<T>>()
    ensures links { (nodes : Records T) (containers : Records C) (lists : ArenaIndex → List ArenaIndex)
        → AreLists (seen T.links nodes) (seen C.ends containers) lists
        → (c x : ArenaIndex) (a b : List ArenaIndex)
        → lists c ≡ a ++ x ∷ b
        → seen T.links nodes x ≡ Some (linked (last_or None a) (head_or None b) c) }
    ensures unlinked { (nodes : Records T) (containers : Records C) (lists : ArenaIndex → List ArenaIndex)
        → AreLists (seen T.links nodes) (seen C.ends containers) lists → (x : ArenaIndex)
        → IsLiveIn nodes x → ¬ IsInList (seen T.links nodes) x
        → seen T.links nodes x ≡ Some unlinked }
    ensures ends { (nodes : Records T) (containers : Records C) (lists : ArenaIndex → List ArenaIndex)
        → AreLists (seen T.links nodes) (seen C.ends containers) lists → (c : ArenaIndex) (e : Ends)
        → seen C.ends containers c ≡ Some e → e ≡ ends_of (lists c) }
    ensures empty { (nodes : Records T) (containers : Records C) (lists : ArenaIndex → List ArenaIndex)
        → AreLists (seen T.links nodes) (seen C.ends containers) lists → (c : ArenaIndex) (e : Ends)
        → seen C.ends containers c ≡ Some e → e.head ≡ None → lists c ≡ [] }
{}

/// A new node with empty links, the removal of one that isn't linked, and a write that leaves a node's links keep every list.
pub fn node_changes_keep_lists<T: LinkedList, C: ContainsLinkedList<T>>()
    ensures inserted { (nodes : Records T) (containers : Records C) (lists : ArenaIndex → List ArenaIndex)
        → AreLists (seen T.links nodes) (seen C.ends containers) lists
        → (id : ArenaIndex) (node : T)
        → IsNew nodes id → T.links node ≡ unlinked
        → AreLists (seen T.links (fill nodes id node)) (seen C.ends containers) lists }
    ensures removed { (nodes : Records T) (containers : Records C) (lists : ArenaIndex → List ArenaIndex)
        → AreLists (seen T.links nodes) (seen C.ends containers) lists → (id : ArenaIndex)
        → IsLiveIn nodes id → ¬ IsInList (seen T.links nodes) id
        → AreLists (seen T.links (cut nodes id)) (seen C.ends containers) lists }
    ensures written { (nodes : Records T) (containers : Records C) (lists : ArenaIndex → List ArenaIndex)
        → AreLists (seen T.links nodes) (seen C.ends containers) lists
        → (id : ArenaIndex) (old new : T)
        → get nodes id ≡ Some old → T.links new ≡ T.links old
        → AreLists (seen T.links (fill nodes id new)) (seen C.ends containers) lists }
{}

/// A new container with no ends, the removal of one whose list is empty, and a write that leaves a container's ends keep every list.
pub fn container_changes_keep_lists<T: LinkedList, C: ContainsLinkedList<T>>()
    ensures inserted { (nodes : Records T) (containers : Records C) (lists : ArenaIndex → List ArenaIndex)
        → AreLists (seen T.links nodes) (seen C.ends containers) lists
        → (id : ArenaIndex) (container : C)
        → IsNew containers id → C.ends container ≡ no_ends
        → AreLists (seen T.links nodes) (seen C.ends (fill containers id container)) lists }
    ensures removed { (nodes : Records T) (containers : Records C) (lists : ArenaIndex → List ArenaIndex)
        → AreLists (seen T.links nodes) (seen C.ends containers) lists → (id : ArenaIndex)
        → IsLiveIn containers id → lists id ≡ []
        → AreLists (seen T.links nodes) (seen C.ends (cut containers id)) lists }
    ensures written { (nodes : Records T) (containers : Records C) (lists : ArenaIndex → List ArenaIndex)
        → AreLists (seen T.links nodes) (seen C.ends containers) lists
        → (id : ArenaIndex) (old new : C)
        → get containers id ≡ Some old → C.ends new ≡ C.ends old
        → AreLists (seen T.links nodes) (seen C.ends (fill containers id new)) lists }
{}

/// An edit hands out no id and frees none.
pub fn edits_keep_ids<T>()
    ensures { (clear : T → T) (old new : Records T) → SameBut clear old new → SameIds old new }
{}

/// An edit leaves each field that it does not write.
pub fn edits_keep_fields<T, Field>()
    ensures { (clear : T → T) (field : T → Field) (old new : Records T)
        → ((x : T) → field (clear x) ≡ field x)
        → SameBut clear old new → (id : ArenaIndex)
        → seen field new id ≡ seen field old id }
{}
