//! What one text says of two forests.

ghost use Rattle.ir_opt_run.specs.SaidLaws.{SaidAlike};

use ir_text_described::laws::described_alike;
use ir_text_tokens::laws::covering_is_read;
use ir_text_tree::laws::one_tree_is_spelled;

/// What one text says of two forests is alike in all but ids and numbers, as it is written.
pub fn said_alike<
    Key,
    Body,
    Attr,
    Saved,
    Aux,
    Loc,
    OtherKey,
    OtherBody,
    OtherAttr,
    OtherSaved,
    OtherAux,
    OtherLoc,
>()
    ensures { SaidAlike (record { Key = Key; Body = Body; Attr = Attr; Saved = Saved; Aux = Aux; Loc = Loc }) (record { Key = OtherKey; Body = OtherBody; Attr = OtherAttr; Saved = OtherSaved; Aux = OtherAux; Loc = OtherLoc }) }
{
    covering_is_read();
    one_tree_is_spelled();
    described_alike::<
        Key,
        Body,
        Attr,
        Saved,
        Aux,
        Loc,
        OtherKey,
        OtherBody,
        OtherAttr,
        OtherSaved,
        OtherAux,
        OtherLoc,
    >();
}
