//! Lists that a compiler hands in: the verifiers of its interfaces, and the keys of its attribute dictionaries.
ghost use Rattle.std.specs.Prelude.{◌≡◌, ◌<◌, map, length, nat_eq, position, MatchResult, IfOk, IfErr, OnOk};
ghost use Rattle.std.specs.Cmp.Lexicographic.{pointwise};
ghost use Rattle.ir_model.specs.declared.error.CoreError.TheVariants.{OutOfMemory};
ghost use Rattle.std.specs.Map.{keys_of};
ghost use Rattle.ir_model.specs.VerifierLists.{deduplicated, DifferBelow, IsFirstRepeat};
ghost use Rattle.ir_base_dialects.specs.VerifierGroups.{with_each, with_owner, with_entry, plain_entry};
ghost use Rattle.ir_model.specs.Edits.{place_of};

use crate::storage_uniquer::UniqueStore;
use indexmap::IndexMap;
use indexmap::map::Entry;
use ir_base_identifiers::Identifier;
use ir_model::CoreError;
use std::alloc::Global;
use thiserror::Error;

/// A dictionary key, and where it was declared.
///
/// It stands for pliron's `DictKeyId`.
#[derive(Clone, Debug, Drop, PartialEq, Eq)]
pub struct DictKeyId {
    /// The key.
    pub id: Identifier,
    /// The file of the declaration.
    pub file: &'static str,
    /// Its line.
    pub line: u32,
    /// Its column.
    pub column: u32,
}

/// Two dictionary keys have one identifier.
#[derive(Clone, Copy, Debug, Drop, PartialEq, Eq, Error)]
#[error("Duplicate dictionary key at places {first} and {second}")]
pub struct DuplicateKey {
    /// The place where the identifier stood first.
    pub first: usize,
    /// The place where it stands again.
    pub second: usize,
}

// The first of the keys that has this identifier.
fn place_of_id(keys: &[DictKeyId], id: &Identifier) -> Option<usize>
    ensures { result ≡ position (λ key. pointwise nat_eq key.id id.now) keys.now }
{
    keys.iter().position(|key| key.id == *id)
}

/// Whether the keys have different identifiers; else the least place whose identifier stood earlier, and that earlier place.
///
/// It stands for pliron's `DICT_KEYS_VERIFIER`, and takes no memory.
pub fn verify_dict_keys(keys: &[DictKeyId]) -> Result<(), DuplicateKey>
    ensures { MatchResult result (λ _. DifferBelow (map (λ k. k.id) keys.now) (length keys.now)) (λ e. IsFirstRepeat (map (λ k. k.id) keys.now) e.first e.second) }
{
    for (second, key) in keys.iter().enumerate() {
        if let Some(first) = place_of_id(&keys[..second], &key.id) {
            return Err(DuplicateKey { first, second });
        }
    }
    Ok(())
}

// Puts the verifiers last that aren't in the list yet.
fn add_verifiers(list: &mut UniqueStore<u32>, verifiers: &[u32]) -> Result<(), CoreError>
    ensures added { OnOk result (list.new ≡ with_each nat_eq list.old verifiers.now) }
    ensures error { IfErr result (λ error. error ≡ OutOfMemory) }
{
    for verifier in verifiers {
        list.get_or_create_unique(*verifier)?;
    }
    Ok(())
}

// The place of the owner, which is put last, without verifiers, where it isn't there.
fn place_of_owner(
    alloc: Global,
    groups: &mut IndexMap<u32, UniqueStore<u32>>,
    owner: u32,
) -> Result<usize, CoreError>
    ensures place { IfOk result (λ place. place ≡ place_of nat_eq (keys_of groups.old.entries) owner) }
    ensures within { IfOk result (λ place. place < length groups.new.entries) }
    ensures groups { OnOk result (groups.new.entries ≡ with_owner groups.old.entries owner) }
    ensures error { IfErr result (λ error. error ≡ OutOfMemory) }
{
    match groups.entry(owner)? {
        Entry::Occupied(entry) => Ok(entry.index()),
        Entry::Vacant(entry) => {
            let place = entry.index();
            entry.insert(UniqueStore::new(alloc));
            Ok(place)
        }
    }
}

// Adds the verifiers to the owner's list.
fn add_entry(
    alloc: Global,
    groups: &mut IndexMap<u32, UniqueStore<u32>>,
    owner: u32,
    verifiers: &[u32],
) -> Result<(), CoreError>
    ensures added { OnOk result (groups.new.entries ≡ with_entry groups.old.entries owner verifiers.now) }
    ensures error { IfErr result (λ error. error ≡ OutOfMemory) }
{
    let place = place_of_owner(alloc, groups, owner)?;
    if let Some(list) = groups.get_index_mut(place) {
        add_verifiers(list, verifiers)?;
    }
    Ok(())
}

// The groups as vectors.
fn vectors_of(
    alloc: Global,
    groups: &IndexMap<u32, UniqueStore<u32>>,
) -> Result<Vec<(u32, Vec<u32>)>, CoreError>
    ensures lists { IfOk result (λ lists. map plain_entry lists.items ≡ groups.now.entries) }
    ensures error { IfErr result (λ error. error ≡ OutOfMemory) }
{
    let mut lists = Vec::with_capacity(alloc, groups.len())?;
    for place in 0..groups.len() {
        if let Some((owner, list)) = groups.get_index(place) {
            lists.push((*owner, list.as_slice().to_vec(alloc)?))?;
        }
    }
    Ok(lists)
}

/// The verifiers of each owner, each at its first place, with the owners in the order of their first entry.
///
/// An entry is an owner and a list of its verifiers. It stands for what pliron does when it collects the verifiers of interfaces.
/// `OutOfMemory` comes where a growth was refused.
pub fn collect_deduped_interface_verifiers(
    alloc: Global,
    entries: &[(u32, Vec<u32>)],
) -> Result<Vec<(u32, Vec<u32>)>, CoreError>
    ensures collected { IfOk result (λ lists. map plain_entry lists.items ≡ deduplicated (map plain_entry entries.now)) }
    ensures error { IfErr result (λ error. error ≡ OutOfMemory) }
{
    let mut groups = IndexMap::new(alloc);
    for (owner, verifiers) in entries {
        add_entry(alloc, &mut groups, *owner, verifiers)?;
    }
    vectors_of(alloc, &groups)
}
