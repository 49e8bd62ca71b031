//! The program `lab`: it reads lines from standard input, and answers each over a session or a context of the dialect Toy. It looks at one argument: with `marks` it says `ready` before each call and `done` after it.
//!
//! It supports tests, and promises nothing but safety. Words, names and answers are those of `testkit_lab` and of the modules here, each named by what stands before the point in a word.
#![tactic(auto)]

mod checked;
mod queries;
mod rewriting;
mod types;

use crate::rewriting::Kept;
use anyhow::Result;
use std::env;
use std::io::{self, BufRead, BufReader, Write};
use testkit_lab::{Lab, TextError, take_field};

// The answer to a line that has no form of a line.
const MALFORMED: &str = "malformed";

// Answers a line into the lab's text.
fn answer(lab: &mut Lab, kept: &mut Kept, line: &str) -> Result<(), TextError> {
    find_answer(lab, kept, line)?;
    lab.text.end()
}

// The same, where the end of the text may tell that there is no answer.
fn find_answer(lab: &mut Lab, kept: &mut Kept, line: &str) -> Result<(), TextError> {
    let Some((word, rest)) = take_field(line) else {
        return Err(TextError::Malformed);
    };
    let Some((group, _)) = word.split_once('.') else {
        return answer_plain(lab, kept, word, rest);
    };
    match group {
        "edit" => testkit_lab::answer_edit(lab, word, rest),
        "checked" => checked::answer(lab, word, rest),
        "op" | "block" | "region" | "value" | "use" | "list" | "nest" => {
            queries::answer(lab, word, rest)
        }
        "rewrite" | "rewriter" => rewriting::answer(lab, kept, word, rest),
        _ => types::answer(lab, word, rest),
    }
}

// Answers a line whose word is of no group. `begin` forgets the rewriter.
fn answer_plain(lab: &mut Lab, kept: &mut Kept, word: &str, rest: &str) -> Result<(), TextError> {
    if word == "begin" {
        *kept = None;
    }
    testkit_lab::answer(lab, word, rest)
}

// Answers a line, and writes the answer, between marks where they are asked for.
fn follow_line<W: Write>(
    out: &mut W,
    lab: &mut Lab,
    kept: &mut Kept,
    line: &str,
    marks: bool,
) -> Result<()> {
    lab.text.clear();
    if marks {
        out.write_all(b"ready\n")?;
    }
    let ended = answer(lab, kept, line);
    if marks {
        out.write_all(b"done\n")?;
    }
    if ended == Err(TextError::Malformed) {
        lab.text.clear();
        lab.text.say(MALFORMED);
    } else {
        ended?;
    }
    lab.text.say("\n");
    lab.text.end()?;
    out.write_all(lab.text.as_str().as_bytes())?;
    Ok(())
}

// Whether the line is one to be answered.
fn is_asked(line: &str) -> bool {
    !line.is_empty() && !line.starts_with('#')
}

fn main(rt: HostRuntime) -> Result<()> {
    let alloc = rt.alloc();
    let marks = env::args(&rt)?.nth(1).is_some();
    let mut out = rt.stdout();
    let mut lab = Lab::new(alloc)?;
    let mut kept = None;
    for line in BufReader::new(alloc, rt.reader())?.lines(alloc) {
        let line = line?;
        if is_asked(&line) {
            follow_line(&mut out, &mut lab, &mut kept, &line, marks)?;
        }
    }
    Ok(())
}
