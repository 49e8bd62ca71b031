//! Keys of attributes and their identifiers.

use generic_dialect::laws::{keys_stand_apart, properties_stand_apart};
use generic_dialect::{key_bytes, key_identifier, properties_key};
use ir_base_dialects::Identifier;
use std::alloc::Global;
use std::process::Abort;

// Whether the key has this identifier, and the identifier that key.
fn is_identified(rt: &impl Abort, alloc: Global, key: &[u8], expected: &str) -> bool {
    let name = key_identifier(alloc, key).expect(rt, "memory");
    let back = key_bytes(alloc, &name)
        .expect(rt, "memory")
        .expect(rt, "a key");
    name.as_str() == expected && back.as_slice() == key
}

#[test]
fn keys_and_identifiers(rt: HostRuntime) {
    keys_stand_apart();
    for (key, name) in [
        (b"value".as_slice(), "value"),
        (b"_", "_"),
        (b"_x", "_x"),
        (b"", "__"),
        (b"__", "__5f5f"),
        (b"__61", "__5f5f3631"),
        (b"gpu.kernel", "__6770752e6b65726e656c"),
        (b"9", "__39"),
        (b"a b", "__612062"),
        (b"\xff\x00", "__ff00"),
    ] {
        assert!(rt; is_identified(&rt, rt.alloc(), key, name), "{name}");
    }
}

// Whether no key has the identifier.
fn is_free(rt: &impl Abort, alloc: Global, name: &'static str) -> bool {
    let name = Identifier::try_new(String::from_str(alloc, name).expect(rt, "memory"));
    let name = name.expect(rt, "an identifier");
    key_bytes(alloc, &name).expect(rt, "memory").is_none()
}

#[test]
fn identifiers_without_a_key(rt: HostRuntime) {
    properties_stand_apart();
    // No digits, one digit, digits of upper case, and the digits of a key that stands for itself.
    for name in ["__properties", "__6", "__FF", "__5F", "__61", "__2e_"] {
        assert!(rt; is_free(&rt, rt.alloc(), name), "{name}");
    }
    assert!(rt; properties_key().as_str() == "__properties");
}
