//! Laws of what one tree describes in two forests, and of what is alike.

ghost use Rattle.ir_text_described.specs.AlikeLaws.{AllCorresponds, AlikeTurned, ApartLaws, OneToOne, ValuesHaveOneType};
ghost use Rattle.ir_text_described.specs.AlikeRows.{AlikeRows};
ghost use Rattle.ir_text_described.specs.DescribedLaws.{DescribedAlike, MeantAlike, MeantAreDefined};

use ir_text_names::laws::{names_one_block, names_one_value};

/// Operations that one tree describes in two forests are alike in all but ids and numbers, as they are written, where what the tree names is defined in it. So are those that the rows of one text describe, by whatever tables their names are told, where no name is given again. The forests may be of two dialects, with words of their own.
pub fn described_alike<
    Key,
    Body,
    Attr,
    Saved,
    Aux,
    Loc,
    OtherKey,
    OtherBody,
    OtherAttr,
    OtherSaved,
    OtherAux,
    OtherLoc,
>()
    ensures one_tree { DescribedAlike (record { Key = Key; Body = Body; Attr = Attr; Saved = Saved; Aux = Aux; Loc = Loc }) (record { Key = OtherKey; Body = OtherBody; Attr = OtherAttr; Saved = OtherSaved; Aux = OtherAux; Loc = OtherLoc }) }
    ensures one_text { MeantAlike (record { Key = Key; Body = Body; Attr = Attr; Saved = Saved; Aux = Aux; Loc = Loc }) (record { Key = OtherKey; Body = OtherBody; Attr = OtherAttr; Saved = OtherSaved; Aux = OtherAux; Loc = OtherLoc }) }
{
    names_one_value();
    names_one_block();
}

/// Where each row of a tree names what a name with its text means there, what it names is defined in the tree.
pub fn meant_names_are_defined()
    ensures { MeantAreDefined }
{}

/// All inside alike operations corresponds to something, corresponding values have one type, and what is alike is so the other way round.
pub fn alike_tells<
    Key,
    Body,
    Attr,
    Saved,
    Aux,
    Loc,
    OtherKey,
    OtherBody,
    OtherAttr,
    OtherSaved,
    OtherAux,
    OtherLoc,
>()
    ensures all { AllCorresponds (record { Key = Key; Body = Body; Attr = Attr; Saved = Saved; Aux = Aux; Loc = Loc }) (record { Key = OtherKey; Body = OtherBody; Attr = OtherAttr; Saved = OtherSaved; Aux = OtherAux; Loc = OtherLoc }) }
    ensures types { ValuesHaveOneType (record { Key = Key; Body = Body; Attr = Attr; Saved = Saved; Aux = Aux; Loc = Loc }) (record { Key = OtherKey; Body = OtherBody; Attr = OtherAttr; Saved = OtherSaved; Aux = OtherAux; Loc = OtherLoc }) }
    ensures turned { AlikeTurned (record { Key = Key; Body = Body; Attr = Attr; Saved = Saved; Aux = Aux; Loc = Loc }) (record { Key = OtherKey; Body = OtherBody; Attr = OtherAttr; Saved = OtherSaved; Aux = OtherAux; Loc = OtherLoc }) }
{}

/// Nothing corresponds to two, on either side, where the forest of that side is nested and its operations stand apart.
pub fn correspondents_are_one<
    Key,
    Body,
    Attr,
    Saved,
    Aux,
    Loc,
    OtherKey,
    OtherBody,
    OtherAttr,
    OtherSaved,
    OtherAux,
    OtherLoc,
>()
    ensures { OneToOne (record { Key = Key; Body = Body; Attr = Attr; Saved = Saved; Aux = Aux; Loc = Loc }) (record { Key = OtherKey; Body = OtherBody; Attr = OtherAttr; Saved = OtherSaved; Aux = OtherAux; Loc = OtherLoc }) }
{}

/// One operation alone stands apart, and so do those of a block in a nested forest.
pub fn listed_stand_apart<Key, Body, Attr, Saved, Aux, Loc>()
    ensures { ApartLaws (record { Key = Key; Body = Body; Attr = Attr; Saved = Saved; Aux = Aux; Loc = Loc }) }
{}

/// The worked examples of alike operations hold: one with other ids and numbers and with other things that aren't written, beside twenty that differ in one part each, and aren't alike.
pub fn small_alikes_are_told()
    ensures { AlikeRows }
{}
