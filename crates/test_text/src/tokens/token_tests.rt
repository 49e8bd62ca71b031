// What each text gives, and what is spelled of it.
use crate::tokens::rendering::rendered;
use ir_text_tokens::{Fault, spell, tokens};
use std::alloc::Global;
use std::test::Fail;

// The texts with their tokens. Each sort of token, what is glued, comments.
const TOKENS: &[(&[u8], &[u8])] = &[
    (b"", b""),
    (b" \t\r\n// a comment\n", b""),
    (b"// a comment at the end", b""),
    (
        b"%0:2, %arg0 = \"op.name\"(%x#1, %v-7) ",
        b"|value %0,: :,word 2,, ,|value %arg0|= =|string \"op.name\",( (,value %x,attribute #1,, ,|value %v-7,) )",
    ),
    (
        b"%0a %a$_.3 %-1 ^0 ^bb0 ^b.7",
        b"|value %0,word a|value %a$_.3|value %-1|block ^0|block ^bb0|block ^b.7",
    ),
    (
        b"[^bb1, ^bb2] ({ ^bb0: })",
        b"|[ [,block ^bb1,, ,|block ^bb2,] ]|( (,{ {|block ^bb0,: :|} },) )",
    ),
    (
        b"@f @\"a b\"::@b #a #0 #dialect.attr !t !dialect.type @",
        b"|symbol @f|symbol @,string \"a b\",: :,: :,symbol @b|attribute #a|attribute #0|attribute #dialect.attr|type !t|type !dialect.type|symbol @",
    ),
    (
        b"a.b = unit, \"a key\" = 1 : i32, x",
        b"|word a.b|= =|word unit,, ,|string \"a key\"|= =|word 1|: :|word i32,, ,|word x",
    ),
    (
        b"-1 1.5e-05 0x1F 1.0e+10 - -> -",
        b"|- -,word 1|word 1.5e,- -,word 05|word 0x1F|word 1.0e,+ +,word 10|- -|arrow ->|- -",
    ),
    (
        b"(i32, f32) -> (i32)",
        b"|( (,word i32,, ,|word f32,) )|arrow ->|( (,word i32,) )",
    ),
    (b"i32->i32", b"|word i32,arrow ->,word i32"),
    (
        b"\"\" \"a\\\\b\" \"\\\"\" \"\\n\\t\" \"\\0aF9\" \"// none\" \"%\"",
        b"|string \"\"|string \"a\\\\b\"|string \"\\\"\"|string \"\\n\\t\"|string \"\\0aF9\"|string \"// none\"|string \"%\"",
    ),
    (b"\"\xc3\xa9\t\"", b"|string \"\xc3\xa9\t\""),
    (
        b"tensor<4x?xf32> vector<[4]xi8> memref<*xf32, strided<[1], offset: ?>>",
        b"|word tensor,group <4x?xf32>|word vector,group <[4]xi8>|word memref,group <*xf32, strided<[1], offset: ?>>",
    ),
    (
        b"affine_map<(d0) -> (d0 + 1)> affine_set<(d0) : (d0 - 1 >= 0)>",
        b"|word affine_map,group <(d0) -> (d0 + 1)>|word affine_set,group <(d0) : (d0 - 1 >= 0)>",
    ),
    (
        b"dense<\"0x00FF\"> !a<\"\\\">\"> #a<{b = \"<\", c = [1]}>",
        b"|word dense,group <\"0x00FF\">|type !a,group <\"\\\">\">|attribute #a,group <{b = \"<\", c = [1]}>",
    ),
    (
        b"!llvm.ptr<!a<b<(i32) -> i32>>>",
        b"|type !llvm.ptr,group <!a<b<(i32) -> i32>>>",
    ),
    (
        b"loc(\"a.mlir\":1:2) loc(fused<\"p\">[\"a\", callsite(\"b\" at unknown)])",
        b"|word loc,( (,string \"a.mlir\",: :,word 1,: :,word 2,) )|word loc,( (,word fused,group <\"p\">,[ [,string \"a\",, ,|word callsite,( (,string \"b\"|word at|word unknown,) ),] ],) )",
    ),
    (
        b"a+b*c?d|e",
        b"|word a,+ +,word b,* *,word c,? ?,word d,| |,word e",
    ),
    (
        b"\"op\"() <{a = 1 : i32}> : () -> ()",
        b"|string \"op\",( (,) )|group <{a = 1 : i32}>|: :|( (,) )|arrow ->|( (,) )",
    ),
    (b"x//y\nz", b"|word x|word z"),
    (b"%x //c\n#1", b"|value %x|attribute #1"),
    (b"<a\n//\n>", b"|group <a\n//\n>"),
];

// The texts with what is spelled of their tokens.
const SPELLED: &[(&[u8], &[u8])] = &[
    (b" \t\r\n// a comment\n", b""),
    (
        b"%0:2, %arg0 = \"op.name\"(%x#1, %v-7) ",
        b" %0:2, %arg0 = \"op.name\"(%x#1, %v-7)",
    ),
    (
        b"@f @\"a b\"::@b #a #0 #dialect.attr !t !dialect.type @",
        b" @f @\"a b\"::@b #a #0 #dialect.attr !t !dialect.type @",
    ),
    (b"x//y\nz", b" x z"),
    (b"%x //c\n#1", b" %x #1"),
    (b"<a\n//\n>", b" <a\n//\n>"),
];

#[test]
fn tokens_of_texts(rt: HostRuntime) -> Result<(), Fail> {
    for (text, wanted) in TOKENS {
        let found = rendered(rt.alloc(), *text)?;
        assert!(rt; found.as_slice() == *wanted);
    }
    Ok(())
}

// What is spelled of the tokens of a text.
fn respelled(alloc: Global, text: &[u8]) -> Result<Vec<u8>, Fault> {
    let found = tokens(alloc, text)?;
    Ok(spell(alloc, text, found.as_slice())?)
}

#[test]
fn spelled_texts(rt: HostRuntime) -> Result<(), Fail> {
    for (text, wanted) in SPELLED {
        let found = respelled(rt.alloc(), *text)?;
        let again = respelled(rt.alloc(), found.as_slice())?;
        assert!(rt; found.as_slice() == *wanted && again.as_slice() == *wanted);
    }
    Ok(())
}
