//! Dictionaries of attributes, over those of the dialect Toy.
ghost use Rattle.std.specs.Prelude.{◌≡◌, if◌then◌else◌, is_some, option_and_then};
ghost use Rattle.ir_model.specs.Stores.{attribute_at};
ghost use Rattle.ir_base_dialects.specs.Attributes.{with_changed};

use crate::expecting::{expect_same, prints, text};
use ir_base_dialects::attribute::{
    Attribute, AttributeDict, attr_impls, attr_impls_static, attr_should_outline, attr_type,
};
use ir_base_dialects::interfaces::{OutlinedAttr, TypedAttrInterface};
use ir_base_dialects::{Dialects, Identifier, TypeHandle};
use std::alloc::Global;
use std::hash::{DefaultHasher, Hash, Hasher};
use std::mem::size_of;
use std::process::Abort;
use toy_dialect::{Toy, ToyAttr, ToyInt, ToyOutlined, ToyText};

/// A dictionary of attributes of the dialect Toy.
type Dict = AttributeDict<Toy>;

// A record with an empty dictionary gives it 16 bytes.
const _: () = prove!(size_of::<AttributeDict<Toy>>() == 16);

fn number(value: i64) -> ToyInt {
    ToyInt {
        value,
        ty: TypeHandle::at(3),
    }
}

// One of ten keys.
fn key(place: usize) -> Identifier {
    match place {
        0 => Identifier::new("a"),
        1 => Identifier::new("b"),
        2 => Identifier::new("c"),
        3 => Identifier::new("d"),
        4 => Identifier::new("e"),
        5 => Identifier::new("f"),
        6 => Identifier::new("g"),
        7 => Identifier::new("h"),
        8 => Identifier::new("i"),
        _ => Identifier::new("j"),
    }
}

// Puts an attribute at a key.
fn put<A: Attribute<Toy>>(rt: &impl Abort, dict: &mut Dict, place: usize, attribute: A) {
    dict.set(key(place), attribute).expect(rt, "memory");
}

// Puts the text `x` at a key.
fn put_text(rt: &impl Abort, alloc: Global, dict: &mut Dict, place: usize) {
    put(rt, dict, place, ToyText(text(rt, alloc, "x")));
}

// Puts the text `y`, which is to be outlined, at a key.
fn put_outlined(rt: &impl Abort, alloc: Global, dict: &mut Dict, place: usize) {
    put(rt, dict, place, ToyOutlined(text(rt, alloc, "y")));
}

// A text at `a`, a text that is to be outlined at `b`, and a number at `c`.
fn three(rt: &impl Abort, alloc: Global) -> Dict {
    let mut dict = Dict::new(alloc);
    put_text(rt, alloc, &mut dict, 0);
    put_outlined(rt, alloc, &mut dict, 1);
    put(rt, &mut dict, 2, number(5));
    dict
}

// Whether the keys are these, in this order, by each way to count them.
fn has_keys(dict: &Dict, keys: &[&str]) -> bool {
    gives_keys(dict, keys) && dict.len() == keys.len() && dict.is_empty() == keys.is_empty()
}

// Whether the pairs have these keys, in this order.
fn gives_keys(dict: &Dict, keys: &[&str]) -> bool {
    let mut pairs = dict.iter();
    for key in keys {
        if !is_at(pairs.next(), key) {
            return false;
        }
    }
    pairs.next().is_none()
}

// Whether there is a pair, at this key.
fn is_at(pair: Option<(&Identifier, &ToyAttr)>, key: &str) -> bool {
    match pair {
        Some((found, _)) => found.as_str() == key,
        None => false,
    }
}

fn hash_of(dict: &Dict) -> u64 {
    let mut state = DefaultHasher::new();
    dict.hash(&mut state);
    state.finish()
}

// Whether two dictionaries are equal, and have one hash.
fn are_alike(one: &Dict, other: &Dict) -> bool {
    one == other && hash_of(one) == hash_of(other)
}

// Whether a copy has the same pairs, and one without what is to be outlined has these keys.
fn has_copies(rt: &impl Abort, dict: &Dict, kept: &[&str]) -> bool {
    let copy = dict.clone().expect(rt, "memory");
    let skipped = dict.clone_skip_outlined().expect(rt, "memory");
    copy == *dict && has_keys(&skipped, kept)
}

// Whether dictionaries that were filled in one order and in the other are alike, and aren't equal once a number is changed in one.
fn order_is_unseen(rt: &impl Abort, alloc: Global) -> bool {
    let mut one = Dict::new(alloc);
    put(rt, &mut one, 0, number(-1));
    put_text(rt, alloc, &mut one, 1);
    let mut other = Dict::new(alloc);
    put_text(rt, alloc, &mut other, 1);
    put(rt, &mut other, 0, number(-1));
    let alike = are_alike(&one, &other);
    put(rt, &mut other, 0, number(2));
    alike && one != other
}

// Whether the attribute under a key is typed.
fn is_typed(dict: &Dict, key: &Identifier) -> bool {
    dict.get_as::<TypedAttrInterface>(key).is_some()
}

// Whether the attribute under the third key alone is typed, and none under the first.
fn is_last_typed(dict: &Dict) -> bool {
    let (first, last) = (key(0), key(2));
    let typed = (is_typed(dict, &first), is_typed(dict, &last));
    typed == (false, true)
}

// Takes the attribute at a key out.
fn take(dict: &mut Dict, place: usize) -> Option<ToyAttr> {
    let key = key(place);
    dict.remove(&key)
}

// Whether there is the text `y`, which is to be outlined.
fn is_outlined(attr: Option<&ToyAttr>) -> bool {
    match attr {
        Some(ToyAttr::Outlined(text)) => text.0.as_str() == "y",
        _ => false,
    }
}

// Takes the second attribute out. Whether it was the text that is to be outlined.
fn is_taken_out(dict: &mut Dict) -> bool {
    let taken = take(dict, 1);
    is_outlined(taken.as_ref())
}

// Whether the id of the texts that are to be outlined is printed so, asked for by their type and by one of them.
fn is_outlined_id(rt: &impl Abort, alloc: Global, printed: &str) -> bool {
    let id = ToyOutlined::get_attr_id_static(alloc).expect(rt, "memory");
    let one = ToyOutlined(text(rt, alloc, "y"));
    let same = one.get_attr_id(alloc).expect(rt, "memory") == id;
    same && prints(rt, alloc, &id, printed)
}

// Whether three attributes are there once memory was given back, are copied, told by their interfaces and taken out.
fn are_three_told(rt: &impl Abort, alloc: Global) -> bool {
    let mut dict = three(rt, alloc);
    dict.shrink_to_fit();
    has_keys(&dict, &["a", "b", "c"])
        && has_copies(rt, &dict, &["a", "c"])
        && is_last_typed(&dict)
        && is_taken_out(&mut dict)
        && has_keys(&dict, &["a", "c"])
}

#[test]
fn dictionaries(rt: HostRuntime) {
    let alloc = rt.alloc();
    assert!(rt; order_is_unseen(&rt, alloc));
    assert!(rt; are_three_told(&rt, alloc));
    assert!(rt; is_outlined_id(&rt, alloc, "toy.outlined"));
}

// Whether a dictionary is equal to a new one, and hashes as it does.
fn is_new(alloc: Global, dict: &Dict) -> bool {
    let new = Dict::new(alloc);
    are_alike(dict, &new)
}

// Whether a dictionary is as a new one is, and its copies are so too.
fn is_as_new(rt: &impl Abort, alloc: Global, dict: &Dict) -> bool {
    is_new(alloc, dict) && has_keys(dict, &[]) && has_copies(rt, dict, &[])
}

// Refuses copies of an empty dictionary that answer want of memory, before and after a pair was in it.
#[test]
fn copies_of_empty_dictionaries(rt: HostRuntime) {
    let alloc = rt.alloc();
    let mut dict = Dict::new(alloc);
    let at_first = is_as_new(&rt, alloc, &dict);
    put(&rt, &mut dict, 0, number(1));
    let removed = take(&mut dict, 0).is_some();
    let at_last = is_as_new(&rt, alloc, &dict);
    expect_same(&rt, [at_first, removed, at_last], [true; 3]);
}

// The number under a key, where there is one.
fn number_under(dict: &Dict, key: &Identifier) -> Option<i64> {
    Some(dict.get::<ToyInt>(key)?.value)
}

// The number at a key, where there is one.
fn number_at(dict: &Dict, place: usize) -> Option<i64> {
    let key = key(place);
    number_under(dict, &key)
}

// Whether the keys up to a place have their numbers, and no others are there.
fn counts_to(dict: &Dict, end: usize) -> bool {
    for place in 0..end {
        if number_at(dict, place) != i64::try_from(place).ok() {
            return false;
        }
    }
    dict.len() == end && number_at(dict, end).is_none()
}

// Puts the next number where it belongs. Where memory is refused, asserts that nothing has changed and that the next call puts it there, and the test ends.
fn put_next(rt: &impl Abort, dict: &mut Dict, next: u32) {
    let place = next as usize;
    let answer = dict.set(key(place), number(i64::from(next)));
    if answer.is_err() {
        expect_same(rt, counts_to(dict, place), true);
        put(rt, dict, place, number(i64::from(next)));
    }
    expect_same(rt, counts_to(dict, place + 1), true);
    answer.expect(rt, "memory");
}

// Two numbers are put again, which needs no memory.
#[test]
fn refused_set_changes_nothing(rt: HostRuntime) {
    let mut dict = Dict::new(rt.alloc());
    for next in 0..9u32 {
        put_next(&rt, &mut dict, next);
    }
    let answers = [dict.set(key(3), number(3)), dict.set(key(8), number(8))];
    expect_same(
        &rt,
        (answers, counts_to(&dict, 9)),
        ([Ok(()), Ok(())], true),
    );
}

// A dictionary of ten numbers, each at its key.
fn ten(rt: &impl Abort, alloc: Global) -> Dict {
    let mut dict = Dict::new(alloc);
    for next in 0..10u32 {
        put(rt, &mut dict, next as usize, number(i64::from(next)));
    }
    dict
}

// Takes the numbers at two of ten keys out and puts them again. Whether the keys are in their order before and after that.
fn keeps_order(rt: &impl Abort, dict: &mut Dict, [first, last]: [u32; 2]) -> [bool; 3] {
    let taken = [first, last].map(|next| take(dict, next as usize).is_some()) == [true; 2];
    let left = has_keys(dict, &["a", "c", "d", "e", "f", "g", "h", "j"]);
    for next in [first, last] {
        put(rt, dict, next as usize, number(i64::from(next)));
    }
    let all = ["a", "c", "d", "e", "f", "g", "h", "j", "b", "i"];
    [taken, left, has_keys(dict, &all)]
}

// Refuses a dictionary that puts a pair among the first eight while others stand behind them.
#[test]
fn pairs_behind_the_eighth(rt: HostRuntime) {
    let alloc = rt.alloc();
    let mut dict = ten(&rt, alloc);
    expect_same(&rt, keeps_order(&rt, &mut dict, [1, 8]), [true; 3]);
    let other = ten(&rt, alloc);
    expect_same(&rt, are_alike(&dict, &other), true);
}

// Writes a value through a loan, where there is one of its kind at the key. Its contract follows from that of `get_mut`.
fn write_through<T: Attribute<D> + Drop, D: Dialects>(
    dict: &mut AttributeDict<D>,
    key: &Identifier,
    value: T,
)
    ensures { dict.new ≡ (if is_some (option_and_then T.value_of (attribute_at dict.old key.now)) then with_changed dict.old key.now (λ attr. T.with_value attr value) else dict.old) }
{
    if let Some(lent) = dict.get_mut::<T>(key) {
        *lent = value;
    }
}

// Writes a number through a loan, where there is a number at the key.
fn write_number(dict: &mut Dict, place: usize, value: i64) {
    let key = key(place);
    write_through(dict, &key, number(value));
}

// Whether the text under a key is this one.
fn has_text(dict: &Dict, key: &Identifier, letters: &str) -> bool {
    match dict.get::<ToyText>(key) {
        Some(text) => text.0.as_str() == letters,
        None => false,
    }
}

// Whether the text under a key is this one, and is to be outlined.
fn has_outlined(dict: &Dict, key: &Identifier, letters: &str) -> bool {
    match dict.get::<ToyOutlined>(key) {
        Some(text) => text.0.as_str() == letters,
        None => false,
    }
}

// Whether the text at `a`, the outlined one at `b` and this number at `c` are there, in this order, and no number at `a`.
fn has_number(dict: &Dict, value: i64) -> bool {
    let (first, second) = (key(0), key(1));
    let texts = (
        has_text(dict, &first, "x"),
        has_outlined(dict, &second, "y"),
    );
    let numbers = (number_at(dict, 0), number_at(dict, 2));
    let keys = has_keys(dict, &["a", "b", "c"]);
    (texts, numbers, keys) == ((true, true), (None, Some(value)), true)
}

// Nothing is written where no number is: at the text, and at a key that isn't there.
#[test]
fn writes_through_loans(rt: HostRuntime) {
    let mut dict = three(&rt, rt.alloc());
    let read = has_number(&dict, 5);
    write_number(&mut dict, 2, 7);
    let written = has_number(&dict, 7);
    write_number(&mut dict, 0, 8);
    write_number(&mut dict, 3, 9);
    expect_same(&rt, [read, written, has_number(&dict, 7)], [true; 3]);
}

// What is told of an attribute: its type, whether it is to be outlined, and that by its interface.
fn told(attr: &ToyAttr) -> (Option<TypeHandle>, bool, bool) {
    let outlined = attr_impls::<OutlinedAttr, Toy>(attr);
    (
        attr_type::<Toy>(attr),
        attr_should_outline::<Toy>(attr),
        outlined,
    )
}

#[test]
fn questions_of_attributes(rt: HostRuntime) {
    let number = number(5).into_attr();
    let outlined = ToyOutlined(text(&rt, rt.alloc(), "y")).into_attr();
    let ty = Some(TypeHandle::at(3));
    expect_same(
        &rt,
        [told(&number), told(&outlined)],
        [(ty, false, false), (None, true, true)],
    );
    expect_same(&rt, attr_impls_static::<ToyInt, OutlinedAttr, Toy>(), false);
}
