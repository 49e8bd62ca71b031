//! What is timed. Each workload has functions named `timed_..` that are the timed part and nothing more.

use crate::building::{ToyContext, ToyOp, ToyValue};
use crate::chains::{building, rebuilding, unlinked_checked};
use crate::definitions::{arguments_front, results_front};
use crate::lists::{blocks, front_to_back, random_moves};
use crate::nests::{deep, deep_asked, module_built, module_erased, nest_above, nest_below};
use crate::operands::{
    push_and_remove, pushes_and_removals, replaced_back, replaced_front, replaced_random,
    replacements,
};
use crate::outcome::BenchErr;
use crate::passes::{cse, sweeping_inside};
use crate::settled::unlinked;
use crate::sweeps::{sweep_back, sweep_comb, sweep_fan_in, sweep_fan_out, sweep_front, sweep_none};
use crate::types::interning;
use crate::uses::{argument_users, replacing, replacing_in_one};
use crate::verifying::{verifying, verifying_deep};
use crate::{settled_building, settled_chains, settled_lists, settled_nests, settled_operands};
use bench_clock::{Outcome, Stopwatch};
use ir_base::types::TypeHandle;
use ir_run::toy::ToyType;
use std::alloc::Global;
use std::time::CpuClock;

/// What can be timed.
#[derive(Clone, Copy, Drop)]
pub enum Workload {
    /// N operations without a block, each with one result and the results of the two before as operands.
    Unlinked,
    /// The same by calls whose conditions are tested, as all workloads below are.
    UnlinkedChecked,
    /// N such operations at the back of a block.
    Building,
    /// N uses of one value, each by an operation of its own, come to name another value, and back.
    Replacing,
    /// Over N operations of a block, a new one behind each takes its uses, and the old one is erased.
    Rebuilding,
    /// A module of N/8 functions with five operations each is erased.
    ModuleErased,
    /// Such a module is built.
    ModuleBuilt,
    /// N types out of N/10 keys.
    Interning,
    /// N operations one by one from the front of one block to the back of another.
    FrontToBack,
    /// A random one of N operations before another random one, N times.
    RandomMoves,
    /// N blocks one by one from the front of one region to the back of another.
    Blocks,
    /// An operand that names a value with N other uses is put in and taken out, N times.
    PushAndRemove,
    /// N operands are put into one operation and taken out, the last first.
    PushesAndRemovals,
    /// The operand of N random users of one value is replaced.
    Replacements,
    /// N uses of one value, all by one operation, come to name another value, and back.
    ReplacingInOne,
    /// Over a block of N arguments, an operation for each that uses it.
    ArgumentUsers,
    /// A nest N/3 deep is erased.
    Deep,
    /// In such a nest all uses are dropped, and it is asked whether it can be erased.
    DeepAsked,
    /// Such a nest is built from the outermost operation on, and its ends are asked whether each is inside the other.
    NestAbove,
    /// The same from the innermost operation on.
    NestBelow,
    /// A module of N/8 functions is verified.
    Verifying,
    /// A nest N/3 deep is verified.
    VerifyingDeep,
    /// A dead chain of N operations, each of which uses the one before, is swept.
    SweepFront,
    /// The same, with each operation in front of the one that it uses.
    SweepBack,
    /// A block of N pure operations is swept, none of which is dead.
    SweepNone,
    /// A dead operation whose result N - 1 dead ones use is swept with these.
    SweepFanOut,
    /// A dead operation that uses the results of N - 1 others is swept with these.
    SweepFanIn,
    /// A dead comb of N operations is swept, each of which is in front of the two that it uses, or uses nothing.
    SweepComb,
    /// In a module of N/100 functions, each with a block of 100 operations of which each second one is alike the one before, these are merged.
    Cse,
    /// A module of N/8 functions, each with eight dead operations over three blocks, is swept.
    SweepInside,
    /// N operands of one operation are replaced one by one, the first first.
    ReplacedFront,
    /// The same, the last first.
    ReplacedBack,
    /// A random one of N operands of one operation is replaced, N times.
    ReplacedRandom,
    /// N results are put into one operation, each in front of the others.
    ResultsFront,
    /// N arguments are put into one block, each in front of the others.
    ArgumentsFront,
    /// `a` with nothing tested.
    BuildingProved,
    /// `b` with nothing tested.
    ReplacingProved,
    /// `c` with nothing tested.
    RebuildingProved,
    /// `d` with nothing tested.
    ModuleErasedProved,
    /// `d_build` with nothing tested.
    ModuleBuiltProved,
    /// `f1` with nothing tested.
    FrontToBackProved,
    /// `f2` with nothing tested.
    RandomMovesProved,
    /// `f3` with nothing tested.
    BlocksProved,
    /// `g1` with nothing tested.
    PushAndRemoveProved,
    /// `g2` with nothing tested.
    PushesAndRemovalsProved,
    /// `g3` with nothing tested.
    ReplacementsProved,
    /// `b2` with nothing tested.
    ReplacingInOneProved,
    /// `h` with nothing tested.
    ArgumentUsersProved,
    /// `deep` with nothing tested.
    DeepProved,
}

impl Workload {
    /// All of them, in the order in which they are printed, with their names on the command line.
    pub(crate) fn all() -> [(Workload, &'static str); 49] {
        [
            (Workload::Unlinked, "unlinked"),
            (Workload::UnlinkedChecked, "unlinked_checked"),
            (Workload::Building, "a"),
            (Workload::Replacing, "b"),
            (Workload::Rebuilding, "c"),
            (Workload::ModuleErased, "d"),
            (Workload::ModuleBuilt, "d_build"),
            (Workload::Interning, "e"),
            (Workload::FrontToBack, "f1"),
            (Workload::RandomMoves, "f2"),
            (Workload::Blocks, "f3"),
            (Workload::PushAndRemove, "g1"),
            (Workload::PushesAndRemovals, "g2"),
            (Workload::Replacements, "g3"),
            (Workload::ReplacingInOne, "b2"),
            (Workload::ArgumentUsers, "h"),
            (Workload::Deep, "deep"),
            (Workload::DeepAsked, "deep_asked"),
            (Workload::NestAbove, "nest_above"),
            (Workload::NestBelow, "nest_below"),
            (Workload::Verifying, "v"),
            (Workload::VerifyingDeep, "v_deep"),
            (Workload::SweepFront, "sweep_front"),
            (Workload::SweepBack, "sweep_back"),
            (Workload::SweepNone, "sweep_none"),
            (Workload::SweepFanOut, "sweep_fan_out"),
            (Workload::SweepFanIn, "sweep_fan_in"),
            (Workload::SweepComb, "sweep_comb"),
            (Workload::Cse, "cse"),
            (Workload::SweepInside, "sweep_inside"),
            (Workload::ReplacedFront, "replaced_front"),
            (Workload::ReplacedBack, "replaced_back"),
            (Workload::ReplacedRandom, "replaced_random"),
            (Workload::ResultsFront, "results_front"),
            (Workload::ArgumentsFront, "arguments_front"),
            (Workload::BuildingProved, "a_proved"),
            (Workload::ReplacingProved, "b_proved"),
            (Workload::RebuildingProved, "c_proved"),
            (Workload::ModuleErasedProved, "d_proved"),
            (Workload::ModuleBuiltProved, "d_build_proved"),
            (Workload::FrontToBackProved, "f1_proved"),
            (Workload::RandomMovesProved, "f2_proved"),
            (Workload::BlocksProved, "f3_proved"),
            (Workload::PushAndRemoveProved, "g1_proved"),
            (Workload::PushesAndRemovalsProved, "g2_proved"),
            (Workload::ReplacementsProved, "g3_proved"),
            (Workload::ReplacingInOneProved, "b2_proved"),
            (Workload::ArgumentUsersProved, "h_proved"),
            (Workload::DeepProved, "deep_proved"),
        ]
    }

    /// Runs the workload in an empty context, to which it gives a type. The lists are empty.
    pub(crate) fn run_in<C: CpuClock>(
        self,
        watch: &mut Stopwatch<'_, C>,
        ctx: &mut ToyContext,
        count: usize,
        lists: &mut Lists,
    ) -> Result<Outcome, BenchErr> {
        let ty = ctx.instantiate_key(ToyType::Int { width: 32 })?;
        self.carry_out(watch, ctx, ty, count, lists)
    }

    // Runs the workload in a context that has nothing but a type.
    fn carry_out<C: CpuClock>(
        self,
        watch: &mut Stopwatch<'_, C>,
        ctx: &mut ToyContext,
        ty: TypeHandle,
        count: usize,
        lists: &mut Lists,
    ) -> Result<Outcome, BenchErr> {
        let Lists {
            ops,
            values,
            types,
            order,
        } = lists;
        match self {
            Workload::Unlinked => unlinked(watch, ctx, ty, count, ops),
            Workload::UnlinkedChecked => unlinked_checked(watch, ctx, ty, count, ops),
            Workload::Building => building(watch, ctx, ty, count),
            Workload::Replacing => replacing(watch, ctx, ty, count, ops),
            Workload::Rebuilding => rebuilding(watch, ctx, ty, count),
            Workload::ModuleErased => module_erased(watch, ctx, ty, count),
            Workload::ModuleBuilt => module_built(watch, ctx, ty, count),
            Workload::Interning => interning(watch, ctx, count, types),
            Workload::FrontToBack => front_to_back(watch, ctx, ty, count, ops),
            Workload::RandomMoves => random_moves(watch, ctx, ty, count, ops),
            Workload::Blocks => blocks(watch, ctx, ty, count),
            Workload::PushAndRemove => push_and_remove(watch, ctx, ty, count, ops),
            Workload::PushesAndRemovals => pushes_and_removals(watch, ctx, ty, count),
            Workload::Replacements => replacements(watch, ctx, ty, count, ops, order),
            Workload::ReplacingInOne => replacing_in_one(watch, ctx, ty, count),
            Workload::ArgumentUsers => argument_users(watch, ctx, ty, count),
            Workload::Deep => deep(watch, ctx, count),
            Workload::DeepAsked => deep_asked(watch, ctx, count),
            Workload::NestAbove => nest_above(watch, ctx, count),
            Workload::NestBelow => nest_below(watch, ctx, count),
            Workload::Verifying => verifying(watch, ctx, ty, count),
            Workload::VerifyingDeep => verifying_deep(watch, ctx, count),
            Workload::SweepFront => sweep_front(watch, ctx, ty, count),
            Workload::SweepBack => sweep_back(watch, ctx, ty, count),
            Workload::SweepNone => sweep_none(watch, ctx, ty, count),
            Workload::SweepFanOut => sweep_fan_out(watch, ctx, ty, count),
            Workload::SweepFanIn => sweep_fan_in(watch, ctx, ty, count, values),
            Workload::SweepComb => sweep_comb(watch, ctx, ty, count),
            Workload::Cse => cse(watch, ctx, ty, count),
            Workload::SweepInside => sweeping_inside(watch, ctx, ty, count),
            Workload::ReplacedFront => replaced_front(watch, ctx, ty, count),
            Workload::ReplacedBack => replaced_back(watch, ctx, ty, count),
            Workload::ReplacedRandom => replaced_random(watch, ctx, ty, count, order),
            Workload::ResultsFront => results_front(watch, ctx, ty, count),
            Workload::ArgumentsFront => arguments_front(watch, ctx, ty, count),
            Workload::BuildingProved => settled_building::building(watch, ctx, ty, count),
            Workload::ReplacingProved => settled_operands::replacing(watch, ctx, ty, count, ops),
            Workload::RebuildingProved => settled_chains::rebuilding(watch, ctx, ty, count),
            Workload::ModuleErasedProved => settled_nests::module_erased(watch, ctx, ty, count),
            Workload::ModuleBuiltProved => settled_building::module_built(watch, ctx, ty, count),
            Workload::FrontToBackProved => settled_lists::front_to_back(watch, ctx, ty, count, ops),
            Workload::RandomMovesProved => settled_lists::random_moves(watch, ctx, ty, count, ops),
            Workload::BlocksProved => settled_lists::blocks(watch, ctx, ty, count),
            Workload::PushAndRemoveProved => settled_operands::push_and_remove(
                watch, ctx, ty, count, ops,
            ),
            Workload::PushesAndRemovalsProved => settled_operands::pushes_and_removals(
                watch, ctx, ty, count,
            ),
            Workload::ReplacementsProved => settled_operands::replacements(
                watch, ctx, ty, count, ops, order,
            ),
            Workload::ReplacingInOneProved => settled_operands::replacing_in_one(
                watch, ctx, ty, count,
            ),
            Workload::ArgumentUsersProved => settled_building::argument_users(
                watch, ctx, ty, count,
            ),
            Workload::DeepProved => settled_nests::deep(watch, ctx, count),
        }
    }
}

/// What a workload keeps beside its context.
#[derive(Drop)]
pub(crate) struct Lists {
    ops: Vec<ToyOp>,
    values: Vec<ToyValue>,
    types: Vec<TypeHandle>,
    order: Vec<usize>,
}

impl Lists {
    /// Nothing is kept.
    pub(crate) fn new(alloc: Global) -> Self {
        Lists {
            ops: Vec::new(alloc),
            values: Vec::new(alloc),
            types: Vec::new(alloc),
            order: Vec::new(alloc),
        }
    }

    /// Keeps nothing any more but the memory.
    pub(crate) fn clear(&mut self) {
        self.ops.clear();
        self.values.clear();
        self.types.clear();
        self.order.clear();
    }
}
