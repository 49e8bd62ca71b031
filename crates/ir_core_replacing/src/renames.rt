//! What places name and the lists of uses, written anew.

ghost use Rattle.std.specs.Prelude.{◌≡◌, ◌↔◌, ◌++◌, length, IsTrue, is_ok, if◌then◌else◌};
ghost use Rattle.ir_base_arenas.specs.Arena.{IsLiveIn};
ghost use Rattle.ir_core_records.specs.Links.{IsPlaced};
ghost use Rattle.ir_core_records.specs.Lists.{HaveDistinctUses};
ghost use Rattle.ir_core_replacing.specs.Renamed.{put_name, IsPlaceOf};

use ir_base_dialects::{ArenaIndex, Dialects, Ptr};
use ir_core_chains::Named;
use ir_core_records::{
    BlockIndex, Definer, KeptOperand, KeptUse, Records, UseIndex, UsePlace, UseRank, Uses,
    ValueIndex, find_operand, find_operand_near, find_successor, find_successor_near,
};
use std::alloc::AllocError;
use std::mem;

/// What a place names, where the place can come to name another.
pub(crate) trait Renames<D: Dialects>: Named<D> {
    // Whether both are one.
    fn is_same(self, other: Self) -> bool
        ensures { IsTrue result ↔ (self ≡ other) };

    // The place of a use, and the index where it stands.
    fn place_of(records: &Records<D>, used: UseIndex) -> (UsePlace<Self>, usize)
        requires live { IsLiveIn records.now.ops used.user }
        requires distinct { HaveDistinctUses (Self.places_at records.now used.user) }
        requires has { IsPlaced (Self.places_at records.now) used }
        ensures { IsPlaceOf (Self.places_at records.now) used result.0 };

    // Lets the place of a use, which was near an index once, name another definition, among whose uses the use stands at `place`.
    fn rename_place(
        records: &mut Records<D>,
        used: UseIndex,
        near: usize,
        names: Self,
        place: UseRank,
    )
        requires live { IsLiveIn records.old.ops used.user }
        requires distinct { HaveDistinctUses (Self.places_at records.old used.user) }
        requires has { IsPlaced (Self.places_at records.old) used }
        ensures { records.new ≡ Self.with_places records.old used.user (put_name (Self.places_at records.old used.user) used.number names place) };

    // Keeps these uses of what is live in place of those that were kept, and gives those back.
    fn replace_uses(records: &mut Records<D>, named: Self, uses: Uses) -> Uses
        requires { Self.IsNamed records.old named }
        ensures records { records.new ≡ Self.with_uses records.old named uses }
        ensures kept { result ≡ Self.uses_at records.old named };

    // How many uses of what is live there are.
    fn use_count(records: &Records<D>, named: Self) -> usize
        requires { Self.IsNamed records.now named }
        ensures { result ≡ length (Self.uses_at records.now named) };

    // Puts copies of these uses behind those of what is live: all or none.
    fn append_uses(
        records: &mut Records<D>,
        named: Self,
        uses: &[KeptUse],
    ) -> Result<(), AllocError>
        requires { Self.IsNamed records.old named }
        ensures { records.new ≡ (if is_ok result then Self.with_uses records.old named (Self.uses_at records.old named ++ uses.now) else records.old) };
}

impl<D: Dialects> Renames<D> for ValueIndex {
    fn is_same(self, other: ValueIndex) -> bool {
        self == other
    }

    fn place_of(records: &Records<D>, used: UseIndex) -> (UsePlace<ValueIndex>, usize) {
        let operands = &records.ops.at(Ptr::from_index(used.user)).operands;
        match find_operand(operands.as_slice(), used.number) {
            Some(found) => (operands.at(found).get(), found),
            None => unreachable!(),
        }
    }

    fn rename_place(
        records: &mut Records<D>,
        used: UseIndex,
        near: usize,
        names: ValueIndex,
        place: UseRank,
    ) {
        let operands = &mut records.ops.at_mut(Ptr::from_index(used.user)).operands;
        let number = used.number;
        match find_operand_near(operands.as_slice(), number, near) {
            Some(found) => {
                *operands.at_mut(found) = KeptOperand::new(UsePlace {
                    number,
                    names,
                    place,
                });
            }
            None => unreachable!(),
        }
    }

    fn replace_uses(records: &mut Records<D>, named: ValueIndex, uses: Uses) -> Uses {
        match named.definer {
            Definer::Op(op) => {
                let operation = records.ops.at_mut(Ptr::from_index(op));
                mem::replace(operation.results.uses_mut(named.number), uses)
            }
            Definer::Block(block) => {
                let block = records.blocks.at_mut(Ptr::from_index(block));
                mem::replace(block.arguments.uses_mut(named.number), uses)
            }
        }
    }

    fn use_count(records: &Records<D>, named: ValueIndex) -> usize {
        match named.definer {
            Definer::Op(op) => {
                let operation = records.ops.at(Ptr::from_index(op));
                operation.results.with_number(named.number).uses.len()
            }
            Definer::Block(block) => {
                let block = records.blocks.at(Ptr::from_index(block));
                block.arguments.with_number(named.number).uses.len()
            }
        }
    }

    fn append_uses(
        records: &mut Records<D>,
        named: ValueIndex,
        uses: &[KeptUse],
    ) -> Result<(), AllocError> {
        match named.definer {
            Definer::Op(op) => {
                let operation = records.ops.at_mut(Ptr::from_index(op));
                operation.results.uses_mut(named.number).extend(uses)
            }
            Definer::Block(block) => {
                let block = records.blocks.at_mut(Ptr::from_index(block));
                block.arguments.uses_mut(named.number).extend(uses)
            }
        }
    }
}

impl<D: Dialects> Renames<D> for BlockIndex {
    fn is_same(self, other: BlockIndex) -> bool {
        self == other
    }

    fn place_of(records: &Records<D>, used: UseIndex) -> (UsePlace<BlockIndex>, usize) {
        let successors = &records.ops.at(Ptr::from_index(used.user)).successors;
        match find_successor(successors.as_slice(), used.number) {
            Some(found) => (*successors.at(found), found),
            None => unreachable!(),
        }
    }

    fn rename_place(
        records: &mut Records<D>,
        used: UseIndex,
        near: usize,
        names: BlockIndex,
        place: UseRank,
    ) {
        let successors = &mut records.ops.at_mut(Ptr::from_index(used.user)).successors;
        let number = used.number;
        match find_successor_near(successors.as_slice(), number, near) {
            Some(found) => {
                *successors.at_mut(found) = UsePlace {
                    number,
                    names,
                    place,
                };
            }
            None => unreachable!(),
        }
    }

    fn replace_uses(records: &mut Records<D>, named: BlockIndex, uses: Uses) -> Uses {
        let block = records.blocks.at_mut(Ptr::from_index(named.index));
        mem::replace(&mut block.uses, uses)
    }

    fn use_count(records: &Records<D>, named: BlockIndex) -> usize {
        records.blocks.at(Ptr::from_index(named.index)).uses.len()
    }

    fn append_uses(
        records: &mut Records<D>,
        named: BlockIndex,
        uses: &[KeptUse],
    ) -> Result<(), AllocError> {
        let block = records.blocks.at_mut(Ptr::from_index(named.index));
        block.uses.extend(uses)
    }
}
