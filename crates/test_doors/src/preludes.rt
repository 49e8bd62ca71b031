//! The traits that the other files take from their modules, from the preludes.

use ir_base::prelude::*;
use ir_verify::prelude::*;
use ir_view::prelude::*;

/// Of `ir_base::prelude`.
pub fn of_base<
    D: Dialects,
    A: Attribute<D>,
    S: SavedValue<D>,
    R: TakeOut,
    N: LinkedList,
    C: ContainsLinkedList<N>,
    I: AttrInterfaceMarker,
    O: OpInterfaceMarker,
>() {}

/// Of `ir_view::prelude` and `ir_verify::prelude`.
pub fn of_view<
    D: Dialects,
    I: TypeInterfaceMarker,
    T: TypeImplsInterface<I, D> + Typed<D> + Verify<D>,
    V: Verifiers<D>,
    C: OwnChecks<D>,
>() {}
