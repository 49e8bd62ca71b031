//! Identifiers, names, arenas, stores and dictionary keys, asked and changed without memory.

ghost use Rattle.std.specs.Prelude.{◌≡◌};

use ir_base_dialects::attribute::AttributeDict;
use ir_base_dialects::{
    Arena, CoreError, DialectName, Dialects, DictKeyId, DuplicateKey, IdentErr, Identifier,
    Legaliser, OpId, OpName, Ptr, UniqueStore, verify_dict_keys,
};
use std::alloc::Global;
use std::convert::AsStr;
use std::hash::{DefaultHasher, Hash, Hasher};
use toy_dialect::Toy;

/// The text `abc`, as often as it is handed over.
#[derive(Drop)]
struct Texts {
    text: String,
    // The same once more.
    other_text: String,
    // And once more, as the name of a dialect.
    dialect_text: String,
}

/// What names something.
#[derive(Drop)]
struct Named {
    // The text `abc` as an identifier.
    identifier: Identifier,
    // The id `toy.add`.
    id: OpId,
    // The keys a, b and a.
    keys: [DictKeyId; 3],
}

/// Where the number 7 stands.
#[derive(Drop)]
struct Sevens {
    arena: Arena<u64>,
    // Its handle there.
    first: Ptr<u64>,
    store: UniqueStore<u64>,
}

/// What the calls are made on.
#[derive(Drop)]
pub struct Stores {
    alloc: Global,
    texts: Texts,
    names: Named,
    sevens: Sevens,
}

fn text(alloc: Global) -> Result<String, CoreError> {
    Ok(String::from_str(alloc, "abc")?)
}

// An identifier in memory of its own.
fn owned(alloc: Global, text: &str) -> Result<Identifier, CoreError> {
    match Identifier::from_text(alloc, text) {
        Ok(identifier) => Ok(identifier),
        Err(IdentErr::OutOfMemory) => Err(CoreError::OutOfMemory),
        Err(IdentErr::MalformedIdentifierErr(_)) => Err(CoreError::CounterSpent),
    }
}

// A dictionary key with this name.
fn key(alloc: Global, name: &str) -> Result<DictKeyId, CoreError> {
    Ok(DictKeyId {
        id: owned(alloc, name)?,
        file: "file",
        line: 1,
        column: 1,
    })
}

// The text thrice.
fn make_texts(alloc: Global) -> Result<Texts, CoreError> {
    Ok(Texts {
        text: text(alloc)?,
        other_text: text(alloc)?,
        dialect_text: text(alloc)?,
    })
}

// The id `toy.add`.
fn add_id(alloc: Global) -> Result<OpId, CoreError> {
    Ok(OpId {
        dialect: DialectName::from(owned(alloc, "toy")?),
        name: OpName::from(owned(alloc, "add")?),
    })
}

// The keys a, b and a.
fn keys_with_double(alloc: Global) -> Result<[DictKeyId; 3], CoreError> {
    Ok([key(alloc, "a")?, key(alloc, "b")?, key(alloc, "a")?])
}

// A store with the number 7.
fn store_of_seven(alloc: Global) -> Result<UniqueStore<u64>, CoreError> {
    let mut store = UniqueStore::new(alloc);
    store.get_or_create_unique(7)?;
    Ok(store)
}

// The identifier, the id and the keys.
fn make_named(alloc: Global) -> Result<Named, CoreError> {
    Ok(Named {
        identifier: owned(alloc, "abc")?,
        id: add_id(alloc)?,
        keys: keys_with_double(alloc)?,
    })
}

// An arena and a store with the number 7.
fn make_sevens(alloc: Global) -> Result<Sevens, CoreError> {
    let mut arena = Arena::new(alloc, 9, 9);
    arena.reserve(9)?;
    let first = arena.insert_with(move |_: Ptr<u64>| 7)?;
    let store = store_of_seven(alloc)?;
    Ok(Sevens {
        arena,
        first,
        store,
    })
}

impl Stores {
    /// What the calls are made on.
    ///
    /// # Errors
    /// Where a request for memory was refused.
    pub fn new(alloc: Global) -> Result<Stores, CoreError> {
        Ok(Stores {
            alloc,
            texts: make_texts(alloc)?,
            names: make_named(alloc)?,
            sevens: make_sevens(alloc)?,
        })
    }
}

impl Stores {
    /// Writes an identifier, a name, an id and an index. Whether that was done.
    pub fn write<R: Print>(&self, rt: &R) -> bool {
        let index = self.sevens.first.index();
        println!(rt;
            "{} {} {} {index}",
            self.names.identifier, self.names.id.name, self.names.id
        )
        .is_ok()
    }
}

/// What is asked or changed.
#[derive(Clone, Copy, Debug, Drop)]
pub enum StoreReading {
    /// Whether a text is an identifier, and identifiers of texts that never go.
    Identifiers,
    /// Identifiers of texts that are handed over.
    OfTexts,
    /// Identifiers compared.
    Compared,
    /// Names of identifiers, and back.
    Names,
    /// Names and ids compared.
    NamesCompared,
    /// An arena, asked.
    Arena,
    /// An arena, lent for writing and taken out of.
    ArenaTaken,
    /// An arena, filled up to the place that was made in it, and cleared.
    ArenaCleared,
    /// A store of distinct values.
    Store,
    /// Whether dictionary keys differ.
    Keys,
    /// What allocates nothing when it is made.
    New,
}

impl StoreReading {
    /// All of them.
    pub const ALL: [StoreReading; 11] = [
        StoreReading::Identifiers,
        StoreReading::OfTexts,
        StoreReading::Compared,
        StoreReading::Names,
        StoreReading::NamesCompared,
        StoreReading::Arena,
        StoreReading::ArenaTaken,
        StoreReading::ArenaCleared,
        StoreReading::Store,
        StoreReading::Keys,
        StoreReading::New,
    ];

    /// The one as `ALL` has it.
    pub fn listed(self) -> StoreReading
        ensures { result ≡ self }
    {
        StoreReading::ALL[self as usize]
    }

    /// The names that the list of such calls gives to what it makes.
    pub fn names(self) -> &'static [&'static str] {
        match self {
            StoreReading::Identifiers => &[
                "Identifier::is_valid",
                "Identifier::new",
                "Identifier::as_str",
            ],
            StoreReading::OfTexts => &[
                "Identifier::try_new",
                "Identifier::try_from",
                "Name::try_from",
            ],
            StoreReading::Compared => &["Identifier::eq", "Identifier::cmp", "Identifier::hash"],
            StoreReading::Names => &[
                "Name::from",
                "Name::as_ref",
                "Name::as_str",
                "Identifier::from",
            ],
            StoreReading::NamesCompared => &["Name::eq", "Name::hash", "Id::eq", "Id::hash"],
            StoreReading::Arena => &[
                "Arena::is_live",
                "Arena::get",
                "Arena::len",
                "Arena::is_empty",
                "Arena::room",
            ],
            StoreReading::ArenaTaken => &["Arena::get_mut", "Arena::remove"],
            StoreReading::ArenaCleared => &["Arena::clear"],
            StoreReading::Store => &["UniqueStore::get", "UniqueStore::get_index"],
            StoreReading::Keys => &["verify_dict_keys"],
            StoreReading::New => &[
                "Arena::new",
                "UniqueStore::new",
                "AttributeDict::new",
                "Legaliser::new",
                "Legaliser::with_counter",
            ],
        }
    }

    /// Makes the calls. Whether they did what they say, or answered what is so.
    pub fn make(self, fixture: &mut Stores) -> bool {
        match self {
            StoreReading::Identifiers => identifiers(),
            StoreReading::OfTexts => of_texts(fixture),
            StoreReading::Compared => compared(&fixture.names.identifier),
            StoreReading::Names => names(&fixture.names.identifier),
            StoreReading::NamesCompared => names_compared(&fixture.names.id),
            StoreReading::Arena => arena(fixture),
            StoreReading::ArenaTaken => arena_taken(fixture),
            StoreReading::ArenaCleared => arena_cleared(&mut fixture.sevens.arena),
            StoreReading::Store => store(&fixture.sevens.store),
            StoreReading::Keys => keys(&fixture.names.keys),
            StoreReading::New => new(fixture.alloc),
        }
    }
}

fn identifiers() -> bool {
    Identifier::is_valid("abc")
        && !Identifier::is_valid("1b")
        && Identifier::new("abc").as_str() == "abc"
}

// A text, handed over, and another in its place.
fn hand_over(text: &mut String, alloc: Global) -> String {
    std::mem::replace(text, String::new(alloc))
}

fn is_identifier(text: &mut String, alloc: Global) -> bool {
    Identifier::try_new(hand_over(text, alloc)).is_ok()
}

fn comes_to_identifier(text: &mut String, alloc: Global) -> bool {
    Identifier::try_from(hand_over(text, alloc)).is_ok()
}

fn comes_to_name(text: &mut String, alloc: Global) -> bool {
    DialectName::try_from(hand_over(text, alloc)).is_ok()
}

fn of_texts(stores: &mut Stores) -> bool {
    let alloc = stores.alloc;
    let texts = &mut stores.texts;
    is_identifier(&mut texts.text, alloc)
        && comes_to_identifier(&mut texts.other_text, alloc)
        && comes_to_name(&mut texts.dialect_text, alloc)
}

// What an item hashes to.
fn hash_of<T: Hash>(item: &T) -> u64 {
    let mut hasher = DefaultHasher::default();
    item.hash(&mut hasher);
    hasher.finish()
}

fn compared(identifier: &Identifier) -> bool {
    let same = Identifier::new("abc");
    *identifier == same
        && *identifier < Identifier::new("abd")
        && hash_of(identifier) == hash_of(&same)
}

fn names(identifier: &Identifier) -> bool {
    let name = OpName::from(Identifier::new("abc"));
    let inner: &Identifier = name.as_ref();
    let is_same = *inner == *identifier && name.as_str() == "abc";
    is_same && Identifier::from(name) == *identifier
}

fn names_compared(id: &OpId) -> bool {
    id.name == OpName::from(Identifier::new("add"))
        && *id == *id
        && hash_of(&id.name) == hash_of(&id.name)
        && hash_of(id) == hash_of(id)
}

fn arena(stores: &Stores) -> bool {
    let arena = &stores.sevens.arena;
    arena.is_live(stores.sevens.first)
        && arena.get(stores.sevens.first) == Some(&7)
        && arena.len() == 1
        && !arena.is_empty()
        && arena.room() == 8
}

fn arena_taken(stores: &mut Stores) -> bool {
    let first = stores.sevens.first;
    stores.sevens.arena.get_mut(first).is_some() && stores.sevens.arena.remove(first) == Some(7)
}

fn arena_cleared(arena: &mut Arena<u64>) -> bool {
    let mut done = true;
    for number in 0..7u64 {
        done &= arena.insert_with(move |_: Ptr<u64>| number).is_ok();
    }
    arena.clear();
    done && arena.is_empty() && arena.room() == 9
}

fn store(store: &UniqueStore<u64>) -> bool {
    store.get(&7) == Some(0) && store.get_index(0) == Some(&7) && store.len() == 1
}

fn keys(keys: &[DictKeyId]) -> bool {
    verify_dict_keys(keys)
        == Err(DuplicateKey {
            first: 0,
            second: 2,
        })
}

fn new(alloc: Global) -> bool {
    let arena: Arena<u64> = Arena::new(alloc, 9, 9);
    let store: UniqueStore<u64> = UniqueStore::new(alloc);
    let _first = Legaliser::new(alloc);
    let _second = Legaliser::with_counter(alloc, 7);
    arena.is_empty() && store.is_empty() && new_dictionary::<Toy>(alloc)
}

// Whether a new dictionary is empty.
fn new_dictionary<D: Dialects>(alloc: Global) -> bool {
    let attributes: AttributeDict<D> = AttributeDict::new(alloc);
    attributes.is_empty()
}
