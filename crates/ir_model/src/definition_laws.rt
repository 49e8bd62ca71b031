//! Laws that speak of the definitions alone: what the crates above may take as given of them.
//!
//! Each is the contract of a function that takes and does nothing, for every choice of a dialect's types.

ghost use Rattle.ir_model.specs.Forest.{Behaviour};
ghost use Rattle.ir_model.specs.EditLaws.{UnlinkEditsGoBack, UnlinkedMayGoBack, ReplaceEditsTakeUses, RetargetEditsTakeUses};
ghost use Rattle.ir_model.specs.DefinitionLaws.{UnlinkedGoesBack, UniqueNamesTell, RemovalIsOne, SubtreeSizeIsOne, ReplacedTakesUses, RetargetedTakesUses, SuccessorsMeetPredecessors, AllUsesAreRedirected, ClosedByDefinitions, SourcesApart, NamesLeadBack, CallsSettle, SearchesAgree};

/// An operation or block that is unlinked and put back where it stood leaves the forest as it was.
///
/// It stood behind another one, or at the front. So it is for the edits that unlink and put back, and the second of them may always be made.
pub fn unlinked_goes_back<Key, Body, Attr, Saved, Aux, Loc>()
    ensures forest { UnlinkedGoesBack (record { Key = Key; Body = Body; Attr = Attr; Saved = Saved; Aux = Aux; Loc = Loc }) }
    ensures edits { (behaviour : Behaviour (record { Key = Key; Body = Body; Attr = Attr; Saved = Saved; Aux = Aux; Loc = Loc })) → UnlinkEditsGoBack _ behaviour }
    ensures allowed { (behaviour : Behaviour (record { Key = Key; Body = Body; Attr = Attr; Saved = Saved; Aux = Aux; Loc = Loc })) → UnlinkedMayGoBack _ behaviour }
{}

/// Equal unique names of two values, or of two blocks, are names of one, and no value shares its name with a block.
///
/// The given names may be any texts.
pub fn unique_names_tell<Key, Body, Attr, Saved, Aux, Loc>()
    ensures { UniqueNamesTell (record { Key = Key; Body = Body; Attr = Attr; Saved = Saved; Aux = Aux; Loc = Loc }) }
{}

/// What a removal leaves is determined: the forest, the uses in it, and that nothing names what is gone.
pub fn removal_is_one<Key, Body, Attr, Saved, Aux, Loc>()
    ensures { RemovalIsOne (record { Key = Key; Body = Body; Attr = Attr; Saved = Saved; Aux = Aux; Loc = Loc }) }
{}

/// How many entities lie inside one is determined: any two lists of them without repeats are equally long.
pub fn subtree_size_is_one<Key, Body, Attr, Saved, Aux, Loc>()
    ensures { SubtreeSizeIsOne (record { Key = Key; Body = Body; Attr = Attr; Saved = Saved; Aux = Aux; Loc = Loc }) }
{}

/// After all uses of a value were replaced by another value, the first has none and the other has as many as both had.
///
/// So it is for the edit that replaces them; where both are one value, it changes nothing.
pub fn replaced_takes_uses<Key, Body, Attr, Saved, Aux, Loc>()
    ensures forest { ReplacedTakesUses (record { Key = Key; Body = Body; Attr = Attr; Saved = Saved; Aux = Aux; Loc = Loc }) }
    ensures edits { (behaviour : Behaviour (record { Key = Key; Body = Body; Attr = Attr; Saved = Saved; Aux = Aux; Loc = Loc })) → ReplaceEditsTakeUses _ behaviour }
{}

/// After all uses of a block were retargeted to another block, the first has none and the other has as many as both had.
///
/// So it is for the edit that retargets them; where both are one block, it changes nothing.
pub fn retargeted_takes_uses<Key, Body, Attr, Saved, Aux, Loc>()
    ensures forest { RetargetedTakesUses (record { Key = Key; Body = Body; Attr = Attr; Saved = Saved; Aux = Aux; Loc = Loc }) }
    ensures edits { (behaviour : Behaviour (record { Key = Key; Body = Body; Attr = Attr; Saved = Saved; Aux = Aux; Loc = Loc })) → RetargetEditsTakeUses _ behaviour }
{}

/// To redirect a set that has exactly the uses of a value or a block is to redirect all that names it.
pub fn all_uses_are_redirected<Key, Body, Attr, Saved, Aux, Loc>()
    ensures { AllUsesAreRedirected (record { Key = Key; Body = Body; Attr = Attr; Saved = Saved; Aux = Aux; Loc = Loc }) }
{}

/// An entity is closed exactly where each operation that names a result, an argument or a block inside it is inside it.
pub fn closed_by_definitions<Key, Body, Attr, Saved, Aux, Loc>()
    ensures { ClosedByDefinitions (record { Key = Key; Body = Body; Attr = Attr; Saved = Saved; Aux = Aux; Loc = Loc }) }
{}

/// Where each operation with a successor is the terminator of a block, b is among the successors of a exactly where a is among the predecessors of b.
pub fn successors_meet_predecessors<Key, Body, Attr, Saved, Aux, Loc>()
    ensures { (behaviour : Behaviour (record { Key = Key; Body = Body; Attr = Attr; Saved = Saved; Aux = Aux; Loc = Loc })) → SuccessorsMeetPredecessors _ behaviour }
{}

/// Whatever calls a legaliser was given, no two sources have one identifier, and each identifier leads back to its source. What it gives is settled by the sources and their order.
pub fn sources_apart()
    ensures apart { SourcesApart }
    ensures back { NamesLeadBack }
    ensures settled { CallsSettle }
{}

/// In a well-formed forest a parent, a neighbour and a place are found one way, and a definition has one number of uses.
pub fn searches_agree<Key, Body, Attr, Saved, Aux, Loc>()
    ensures { SearchesAgree (record { Key = Key; Body = Body; Attr = Attr; Saved = Saved; Aux = Aux; Loc = Loc }) }
{}
