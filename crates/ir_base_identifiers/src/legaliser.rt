//! A legaliser gives each source text an identifier of its own.
//!
//! A contract sees a `Legaliser` as the map from each source to the identifier that it was given, with a counter that makes clashing names differ.
ghost use Rattle.std.specs.Prelude.{◌≡◌, ℕ, List, None, Some, IfOk, IfErr, OnOk, OnErr, IfSome, IfNone, IsOkUnless, string_bytes, if◌then◌else◌};
ghost use Rattle.std.specs.Char.{is_ascii_alphabetic, is_ascii_alphanumeric};
ghost use Rattle.std.specs.Str.{chars, bytes_eq};
ghost use Rattle.std.specs.Map.{update};
ghost use Rattle.std.specs.HashMap.{get_by_text};
ghost use Rattle.ir_model.specs.Legaliser.{nothing_given, name_of, give, base, kept, numbered_text, replaced, IsFree, Chooses, Gives, HasNoName, IsSpent};
ghost use Rattle.ir_base_identifiers.specs.Spent.{SpentOnlyWhere};
ghost use Rattle.ir_base_identifiers.specs.LegaliserTables.{source_at};

use crate::identifier::Identifier;
use ir_model::CoreError;
use std::alloc::Global;
use std::collections::HashMap;
use std::marker::Model;

/// The names that were given, and the number at which the next clash goes on.
///
/// Stands for pliron's `identifier::Legaliser`.
#[derive(Drop)]
pub struct Legaliser {
    names: HashMap<String, Identifier>,
    sources: HashMap<Identifier, String>,
    counter: usize,
    alloc: Global,
}

impl Model for Legaliser {
    ghost use Rattle.ir_model.specs.Legaliser.{Given, given_code};

    ghost Value = { Given };

    ghost coded = { given_code };

    ghost use Rattle.ir_base_identifiers.specs.LegaliserTables.{ArePaired};
    ghost use Rattle.ir_base_identifiers.specs.LegaliserFields.{given_of};

    ghost view = { given_of };

    ghost invariant = { λ fields. ArePaired fields.names fields.sources };
}

impl Legaliser {
    /// A legaliser that gave no name yet. Takes no memory.
    pub fn new(alloc: Global) -> Self
        ensures { result ≡ nothing_given 0 }
    {
        Legaliser::with_counter(alloc, 0)
    }

    /// As `new`, with the number at which the first clash goes on.
    pub fn with_counter(alloc: Global, counter: usize) -> Self
        ensures { result ≡ nothing_given counter }
    {
        Legaliser {
            names: HashMap::new(alloc),
            sources: HashMap::new(alloc),
            counter,
            alloc,
        }
    }

    /// The identifier of a source text: the one that it was given before, else a new one.
    ///
    /// `OutOfMemory` where a growth was refused, `CounterSpent` where the source is new, its base is taken and no number from the counter to below `usize::MAX` makes a name that is free. After either nothing has changed.
    pub fn legalise(&mut self, source: &str) -> Result<Identifier, CoreError>
        ensures given { IfOk result (λ name. Gives self.old source.now name self.new) }
        ensures unchanged { OnErr result (self.new ≡ self.old) }
        ensures refused { IfErr result (SpentOnlyWhere (IsSpent self.old source.now)) }
    {
        if let Some(name) = self.names.get(source) {
            return Ok(name.clone()?);
        }
        let (name, next) = choose(self.alloc, &self.sources, source, self.counter)?;
        self.give(source, name, next)
    }

    // Gives the source a name that no source was given.
    fn give(
        &mut self,
        source: &str,
        name: Identifier,
        counter: usize,
    ) -> Result<Identifier, CoreError>
        requires unknown { name_of self.old source.now ≡ None }
        requires free { IsFree self.old name }
        ensures name { IfOk result (λ given. given ≡ name) }
        ensures given { OnOk result (self.new ≡ give self.old source.now name counter) }
        ensures unchanged { OnErr result (self.new ≡ self.old) }
        ensures refused { IsOkUnless result CoreError.OutOfMemory }
    {
        put_pair(
            self.alloc,
            &mut self.names,
            &mut self.sources,
            source,
            &name,
        )?;
        self.counter = counter;
        Ok(name)
    }

    /// A copy of the source that was given this name, if any was. `OutOfMemory` where there is no room for the copy.
    pub fn source_name(&self, name: &Identifier) -> Result<Option<String>, CoreError>
        ensures found { IfOk result (λ found. IfSome found (λ source. name_of self.now (string_bytes source) ≡ Some name.now)) }
        ensures none { IfOk result (λ found. IfNone found (IsFree self.now name.now)) }
        ensures refused { IsOkUnless result CoreError.OutOfMemory }
    {
        match self.sources.get(name) {
            Some(source) => Ok(Some(source.clone()?)),
            None => Ok(None),
        }
    }
}

// Puts the pair into both tables, or leaves what they hold.
fn put_pair(
    alloc: Global,
    names: &mut HashMap<String, Identifier>,
    sources: &mut HashMap<Identifier, String>,
    source: &str,
    name: &Identifier,
) -> Result<(), CoreError>
    requires unknown { get_by_text names.old source.now ≡ None }
    requires free { source_at sources.old name.now ≡ None }
    ensures names { OnOk result ((q : List ℕ) → get_by_text names.new q ≡ update bytes_eq (get_by_text names.old) source.now (Some name.now) q) }
    ensures sources { OnOk result ((q : List ℕ) → source_at sources.new q ≡ update bytes_eq (source_at sources.old) name.now (Some source.now) q) }
    ensures names_stay { OnErr result (names.new.entries ≡ names.old.entries) }
    ensures sources_stay { OnErr result ((q : List ℕ) → source_at sources.new q ≡ source_at sources.old q) }
    ensures refused { IsOkUnless result CoreError.OutOfMemory }
{
    let source_key = String::from_str(alloc, source)?;
    let source_kept = String::from_str(alloc, source)?;
    let name_key = name.clone()?;
    let name_kept = name.clone()?;
    sources.reserve(1)?;
    names.insert(source_key, name_kept)?;
    sources.insert(name_key, source_kept)?;
    Ok(())
}

// A name without a source for the new source, and the counter after it.
fn choose(
    alloc: Global,
    sources: &HashMap<Identifier, String>,
    source: &str,
    counter: usize,
) -> Result<(Identifier, usize), CoreError>
    ensures chosen { IfOk result (λ chosen. Chooses (λ name. source_at sources.now name ≡ None) counter source.now chosen.0 chosen.1) }
    ensures refused { IfErr result (SpentOnlyWhere (HasNoName (λ name. source_at sources.now name ≡ None) counter source.now)) }
{
    let base = base(alloc, source)?;
    if !sources.contains_key(&base) {
        return Ok((base, counter));
    }
    for number in counter..usize::MAX {
        let name = numbered(alloc, &base, number)?;
        if !sources.contains_key(&name) {
            return Ok((name, number + 1));
        }
    }
    Err(CoreError::CounterSpent)
}

// The base, `_` and the number in decimal.
fn numbered(alloc: Global, base: &Identifier, number: usize) -> Result<Identifier, CoreError>
    ensures text { IfOk result (λ name. name ≡ numbered_text base.now number) }
    ensures refused { IsOkUnless result CoreError.OutOfMemory }
{
    let text = format!(in alloc; "{}_{number}", base.as_str())?;
    Ok(Identifier::from_valid(text))
}

// The source where it is an identifier, else one of its characters.
fn base(alloc: Global, source: &str) -> Result<Identifier, CoreError>
    ensures text { IfOk result (λ name. name ≡ base source.now) }
    ensures refused { IsOkUnless result CoreError.OutOfMemory }
{
    let text = if Identifier::is_valid(source) {
        String::from_str(alloc, source)?
    } else {
        replaced(alloc, source)?
    };
    Ok(Identifier::from_valid(text))
}

// The characters of the source, with those replaced that may not stand in an identifier.
fn replaced(alloc: Global, source: &str) -> Result<String, CoreError>
    ensures text { IfOk result (λ text. string_bytes text ≡ replaced (chars source.now)) }
    ensures refused { IsOkUnless result CoreError.OutOfMemory }
{
    let mut text = String::with_capacity(alloc, source.len())?;
    for character in source.chars() {
        text.push(stand_in(text.is_empty(), character))?;
    }
    if text.is_empty() {
        text.push('_')?;
    }
    Ok(text)
}

// The character where it may stand there in an identifier, else `_`.
fn stand_in(is_first: bool, character: char) -> char
    ensures value { result ≡ kept (if is_first then is_ascii_alphabetic else is_ascii_alphanumeric) character }
{
    let may_stand = if is_first {
        character.is_ascii_alphabetic()
    } else {
        character.is_ascii_alphanumeric()
    };
    if may_stand { character } else { '_' }
}
