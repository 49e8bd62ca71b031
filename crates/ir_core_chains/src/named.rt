//! What operands and successors name, and the lists that the two directions of a chain are kept in.

ghost use Rattle.std.specs.Prelude.{◌≡◌, ◌<◌, ◌≤◌, ◌++◌, ◌∷◌, [], List, length, is_ok, IfOk, if◌then◌else◌, insert, remove, slice_get, slice_set, Some};
ghost use Rattle.std.specs.List.{swap_remove};
ghost use Rattle.ir_base_arenas.specs.Arena.{IsLiveIn};
ghost use Rattle.ir_model.specs.declared.ids.ArenaIndex.{ArenaIndex as Index};
ghost use Rattle.ir_core_records.specs.declared.record.UseIndex.{UseIndex as PlainUse};
ghost use Rattle.ir_core_records.specs.declared.record.UsePlace.{UsePlace as PlainPlace};
ghost use Rattle.ir_core_records.specs.declared.records.Records.{Records as Plain};
ghost use Rattle.ir_core_records.specs.Lists.{put_place, HaveDistinctUses};
ghost use Rattle.ir_core_records.specs.Links.{IsPlaced};
ghost use Rattle.ir_core_chains.specs.Chain.{IsUseChain};
ghost use Rattle.ir_core_records.specs.Table.{IsOp};

use crate::use_lists::{push_use, take_use};
use ir_base_dialects::{ArenaIndex, Dialects, Ptr};
use ir_core_records::{
    BasicBlock, BlockIndex, Definer, KeptOperand, KeptUse, Records, UseIndex, UsePlace, UseRank,
    Value, ValueIndex, find_operand_near, find_successor_near,
};
use std::alloc::AllocError;
use std::mem::replace;

/// What stands for an index that a place names: the index itself, or a handle.
pub trait Names<N> {
    ghost named: { Self → N };

    /// The index.
    fn named_index(&self) -> N
        ensures { result ≡ named self.now };
}

impl Names<ValueIndex> for ValueIndex {
    ghost named = { λ v. v };

    fn named_index(&self) -> ValueIndex {
        *self
    }
}

impl Names<BlockIndex> for BlockIndex {
    ghost named = { λ b. b };

    fn named_index(&self) -> BlockIndex {
        *self
    }
}

impl<D: Dialects> Names<BlockIndex> for Ptr<BasicBlock<D>> {
    ghost named = { λ p. record { index = p.index } };

    #[inline(always)]
    fn named_index(&self) -> BlockIndex {
        BlockIndex { index: self.index }
    }
}

impl<D: Dialects> Names<ValueIndex> for Value<D> {
    ghost named = { λ v. v.index };

    #[inline(always)]
    fn named_index(&self) -> ValueIndex {
        self.index
    }
}

/// What a place of an operation names: a value, as an operand does, or a block, as a successor does.
///
/// Each kind has its list of places in each operation, and keeps its uses in one list each. Each call is one equation on all records.
pub trait Named<D: Dialects>: Copy + Drop {
    ghost places_at: { Plain D D.Attr D.TypeKey D.TypeBody D.Saved D.Aux D.Loc → Index → List (PlainPlace Self) };

    ghost with_places: { Plain D D.Attr D.TypeKey D.TypeBody D.Saved D.Aux D.Loc → Index → List (PlainPlace Self) → Plain D D.Attr D.TypeKey D.TypeBody D.Saved D.Aux D.Loc };

    ghost IsNamed: { Plain D D.Attr D.TypeKey D.TypeBody D.Saved D.Aux D.Loc → Self → Type 0 };

    ghost uses_at: { Plain D D.Attr D.TypeKey D.TypeBody D.Saved D.Aux D.Loc → Self → List PlainUse };

    ghost with_uses: { Plain D D.Attr D.TypeKey D.TypeBody D.Saved D.Aux D.Loc → Self → List PlainUse → Plain D D.Attr D.TypeKey D.TypeBody D.Saved D.Aux D.Loc };

    // How many places a live operation has.
    fn place_count(records: &Records<D>, user: ArenaIndex) -> usize
        requires live { IsLiveIn records.now.ops user }
        ensures { result ≡ length (places_at records.now user) };

    // The place at an index of a live operation.
    fn place_at(records: &Records<D>, user: ArenaIndex, index: usize) -> UsePlace<Self>
        requires live { IsLiveIn records.now.ops user }
        requires within { index < length (places_at records.now user) }
        ensures { slice_get (places_at records.now user) index ≡ Some result };

    // Makes room for so many more places.
    fn reserve_places(
        records: &mut Records<D>,
        user: ArenaIndex,
        additional: usize,
    ) -> Result<(), AllocError>
        requires { IsLiveIn records.old.ops user }
        ensures { records.new ≡ records.old };

    // Puts a place at the end.
    fn push_place(
        records: &mut Records<D>,
        user: ArenaIndex,
        number: u64,
        names: Self,
        place: UseRank,
    ) -> Result<(), AllocError>
        requires live { IsLiveIn records.old.ops user }
        ensures { records.new ≡ (if is_ok result then with_places records.old user (places_at records.old user ++ record { number = number; names = names; place = place } ∷ []) else records.old) };

    // Puts a place at an index, before the one that stands there.
    fn insert_place(
        records: &mut Records<D>,
        user: ArenaIndex,
        index: usize,
        number: u64,
        names: Self,
        place: UseRank,
    ) -> Result<(), AllocError>
        requires live { IsLiveIn records.old.ops user }
        requires within { index ≤ length (places_at records.old user) }
        ensures { records.new ≡ (if is_ok result then with_places records.old user (insert (places_at records.old user) index (record { number = number; names = names; place = place })) else records.old) };

    // Puts a place where another one stands, and gives that one back.
    fn replace_place(
        records: &mut Records<D>,
        user: ArenaIndex,
        index: usize,
        number: u64,
        names: Self,
        place: UseRank,
    ) -> UsePlace<Self>
        requires live { IsLiveIn records.old.ops user }
        requires within { index < length (places_at records.old user) }
        ensures gone { slice_get (places_at records.old user) index ≡ Some result }
        ensures records { records.new ≡ with_places records.old user (slice_set (places_at records.old user) index (record { number = number; names = names; place = place })) };

    // Takes the place at an index out, and gives it back.
    fn remove_place(records: &mut Records<D>, user: ArenaIndex, index: usize) -> UsePlace<Self>
        requires live { IsLiveIn records.old.ops user }
        requires within { index < length (places_at records.old user) }
        ensures gone { slice_get (places_at records.old user) index ≡ Some result }
        ensures records { records.new ≡ with_places records.old user (remove (places_at records.old user) index) };

    // Gives the place of a use, which was near an index once, the index where that use stands now.
    fn set_place(records: &mut Records<D>, moved: UseIndex, near: usize, index: UseRank)
        requires live { IsLiveIn records.old.ops moved.user }
        requires distinct { HaveDistinctUses (places_at records.old moved.user) }
        requires has { IsPlaced (places_at records.old) moved }
        ensures { records.new ≡ with_places records.old moved.user (put_place (places_at records.old moved.user) moved.number index) };

    // Puts a use at the end of those of what is live, and tells where it stands. Its own place stands near an index.
    fn push_use(
        records: &mut Records<D>,
        named: Self,
        new: UseIndex,
        near: usize,
    ) -> Result<UseRank, AllocError>
        requires { IsNamed records.old named }
        ensures records { records.new ≡ (if is_ok result then with_uses records.old named (uses_at records.old named ++ new ∷ []) else records.old) }
        ensures place { IfOk result (λ place. place ≡ length (uses_at records.old named)) };

    // Takes the use at an index out. The last one moves there, and is given back.
    fn take_use(records: &mut Records<D>, named: Self, index: UseRank) -> Option<KeptUse>
        requires named { IsNamed records.old named }
        requires within { index < length (uses_at records.old named) }
        ensures records { (past : PlainUse) → records.new ≡ with_uses records.old named (swap_remove (uses_at records.old named) index past) }
        ensures moved { (past : PlainUse) → result ≡ slice_get (swap_remove (uses_at records.old named) index past) index };

    ghost chain: { IsUseChain IsOp places_at with_places IsNamed uses_at with_uses };
}

impl<D: Dialects> Named<D> for ValueIndex {
    ghost use Rattle.ir_core_records.specs.Table.{operands_at, with_operands, IsValue, uses_at as value_uses_at, with_uses as with_value_uses};
    ghost use Rattle.ir_core_chains.specs.TableLaws.{chain-values};

    ghost places_at = { operands_at };

    ghost with_places = { with_operands };

    ghost IsNamed = { IsValue };

    ghost uses_at = { value_uses_at };

    ghost with_uses = { with_value_uses };

    ghost chain = { chain-values };

    #[inline(always)]
    fn place_count(records: &Records<D>, user: ArenaIndex) -> usize {
        records.ops.at(Ptr::from_index(user)).operands.len()
    }

    fn place_at(records: &Records<D>, user: ArenaIndex, index: usize) -> UsePlace<ValueIndex> {
        records
            .ops
            .at(Ptr::from_index(user))
            .operands
            .at(index)
            .get()
    }

    #[inline(always)]
    fn reserve_places(
        records: &mut Records<D>,
        user: ArenaIndex,
        additional: usize,
    ) -> Result<(), AllocError> {
        records
            .ops
            .at_mut(Ptr::from_index(user))
            .operands
            .reserve(additional)
    }

    #[inline(always)]
    fn push_place(
        records: &mut Records<D>,
        user: ArenaIndex,
        number: u64,
        names: ValueIndex,
        place: UseRank,
    ) -> Result<(), AllocError> {
        let operation = records.ops.at_mut(Ptr::from_index(user));
        operation.operands.push(KeptOperand::new(UsePlace {
            number,
            names,
            place,
        }))
    }

    fn insert_place(
        records: &mut Records<D>,
        user: ArenaIndex,
        index: usize,
        number: u64,
        names: ValueIndex,
        place: UseRank,
    ) -> Result<(), AllocError> {
        let operation = records.ops.at_mut(Ptr::from_index(user));
        operation.operands.insert(
            index,
            KeptOperand::new(UsePlace {
                number,
                names,
                place,
            }),
        )
    }

    #[inline(always)]
    fn replace_place(
        records: &mut Records<D>,
        user: ArenaIndex,
        index: usize,
        number: u64,
        names: ValueIndex,
        place: UseRank,
    ) -> UsePlace<ValueIndex> {
        let operation = records.ops.at_mut(Ptr::from_index(user));
        let new = KeptOperand::new(UsePlace {
            number,
            names,
            place,
        });
        replace(operation.operands.at_mut(index), new).get()
    }

    #[inline(always)]
    fn remove_place(
        records: &mut Records<D>,
        user: ArenaIndex,
        index: usize,
    ) -> UsePlace<ValueIndex> {
        records
            .ops
            .at_mut(Ptr::from_index(user))
            .operands
            .remove(index)
            .get()
    }

    #[inline(always)]
    fn set_place(records: &mut Records<D>, moved: UseIndex, near: usize, index: UseRank) {
        let operands = &mut records.ops.at_mut(Ptr::from_index(moved.user)).operands;
        match find_operand_near(operands.as_slice(), moved.number, near) {
            Some(found) => operands.at_mut(found).set_rank(index),
            None => unreachable!(),
        }
    }

    #[inline(always)]
    fn push_use(
        records: &mut Records<D>,
        named: ValueIndex,
        new: UseIndex,
        near: usize,
    ) -> Result<UseRank, AllocError> {
        match named.definer {
            Definer::Op(op) => {
                let operation = records.ops.at_mut(Ptr::from_index(op));
                push_use(operation.results.uses_mut(named.number), new, near)
            }
            Definer::Block(block) => {
                let block = records.blocks.at_mut(Ptr::from_index(block));
                push_use(block.arguments.uses_mut(named.number), new, near)
            }
        }
    }

    #[inline(always)]
    fn take_use(records: &mut Records<D>, named: ValueIndex, index: UseRank) -> Option<KeptUse> {
        match named.definer {
            Definer::Op(op) => {
                let operation = records.ops.at_mut(Ptr::from_index(op));
                take_use(operation.results.uses_mut(named.number), index)
            }
            Definer::Block(block) => {
                let block = records.blocks.at_mut(Ptr::from_index(block));
                take_use(block.arguments.uses_mut(named.number), index)
            }
        }
    }
}

impl<D: Dialects> Named<D> for BlockIndex {
    ghost use Rattle.ir_core_records.specs.Table.{successors_at, with_successors, IsLiveBlock, block_uses_at, with_block_uses};
    ghost use Rattle.ir_core_chains.specs.TableLaws.{chain-blocks};

    ghost places_at = { successors_at };

    ghost with_places = { with_successors };

    ghost IsNamed = { IsLiveBlock };

    ghost uses_at = { block_uses_at };

    ghost with_uses = { with_block_uses };

    ghost chain = { chain-blocks };

    #[inline(always)]
    fn place_count(records: &Records<D>, user: ArenaIndex) -> usize {
        records.ops.at(Ptr::from_index(user)).successors.len()
    }

    fn place_at(records: &Records<D>, user: ArenaIndex, index: usize) -> UsePlace<BlockIndex> {
        *records.ops.at(Ptr::from_index(user)).successors.at(index)
    }

    #[inline(always)]
    fn reserve_places(
        records: &mut Records<D>,
        user: ArenaIndex,
        additional: usize,
    ) -> Result<(), AllocError> {
        records
            .ops
            .at_mut(Ptr::from_index(user))
            .successors
            .reserve(additional)
    }

    #[inline(always)]
    fn push_place(
        records: &mut Records<D>,
        user: ArenaIndex,
        number: u64,
        names: BlockIndex,
        place: UseRank,
    ) -> Result<(), AllocError> {
        let operation = records.ops.at_mut(Ptr::from_index(user));
        operation.successors.push(UsePlace {
            number,
            names,
            place,
        })
    }

    fn insert_place(
        records: &mut Records<D>,
        user: ArenaIndex,
        index: usize,
        number: u64,
        names: BlockIndex,
        place: UseRank,
    ) -> Result<(), AllocError> {
        let operation = records.ops.at_mut(Ptr::from_index(user));
        operation.successors.insert(
            index,
            UsePlace {
                number,
                names,
                place,
            },
        )
    }

    fn replace_place(
        records: &mut Records<D>,
        user: ArenaIndex,
        index: usize,
        number: u64,
        names: BlockIndex,
        place: UseRank,
    ) -> UsePlace<BlockIndex> {
        let operation = records.ops.at_mut(Ptr::from_index(user));
        let new = UsePlace {
            number,
            names,
            place,
        };
        replace(operation.successors.at_mut(index), new)
    }

    #[inline(always)]
    fn remove_place(
        records: &mut Records<D>,
        user: ArenaIndex,
        index: usize,
    ) -> UsePlace<BlockIndex> {
        records
            .ops
            .at_mut(Ptr::from_index(user))
            .successors
            .remove(index)
    }

    #[inline(always)]
    fn set_place(records: &mut Records<D>, moved: UseIndex, near: usize, index: UseRank) {
        let successors = &mut records.ops.at_mut(Ptr::from_index(moved.user)).successors;
        match find_successor_near(successors.as_slice(), moved.number, near) {
            Some(found) => successors.at_mut(found).place = index,
            None => unreachable!(),
        }
    }

    #[inline(always)]
    fn push_use(
        records: &mut Records<D>,
        named: BlockIndex,
        new: UseIndex,
        near: usize,
    ) -> Result<UseRank, AllocError> {
        push_use(
            &mut records.blocks.at_mut(Ptr::from_index(named.index)).uses,
            new,
            near,
        )
    }

    #[inline(always)]
    fn take_use(records: &mut Records<D>, named: BlockIndex, index: UseRank) -> Option<KeptUse> {
        take_use(
            &mut records.blocks.at_mut(Ptr::from_index(named.index)).uses,
            index,
        )
    }
}
