//! What the command line asks for.

use clap::{Arg, ArgAction, ArgMatches, Command, Error};
use ir_opt_run::{Options, Pass};
use std::alloc::{AllocError, Global};

/// What the command line asks for.
#[derive(Drop)]
pub struct Request<'a> {
    /// The file to read; none for standard input.
    pub input: Option<&'a str>,
    /// The file to write; none for standard output.
    pub output: Option<&'a str>,
    /// What to do.
    pub options: Options<'a>,
}

// A switch that may be given once and again.
fn switch<'a>(alloc: Global, name: &'a str, help: &'a str) -> Arg<'a> {
    Arg::new(alloc, name)
        .long(name)
        .help(help)
        .action(ArgAction::Count)
}

// The arguments that are files.
fn with_files<'a>(alloc: Global, command: Command<'a>) -> Result<Command<'a>, AllocError> {
    let input = Arg::new(alloc, "FILE")
        .help("The text to read; standard input where it is `-` or absent")
        .action(ArgAction::Set);
    let output = Arg::new(alloc, "output")
        .short('o')
        .value_name("FILE")
        .help("The file to write; it stays as it was unless all goes well")
        .action(ArgAction::Set);
    command.arg(input)?.arg(output)
}

// The switches that are passes.
fn with_passes<'a>(alloc: Global, command: Command<'a>) -> Result<Command<'a>, AllocError> {
    command
        .arg(switch(alloc, "sweep", "Dead operations go"))?
        .arg(switch(
            alloc,
            "cse",
            "Of alike operations of a block the later ones go",
        ))?
        .arg(switch(
            alloc,
            "unreachable-blocks",
            "Blocks go that nothing leads to",
        ))
}

// The other switches.
fn with_switches<'a>(alloc: Global, command: Command<'a>) -> Result<Command<'a>, AllocError> {
    command
        .arg(switch(
            alloc,
            "split-input-file",
            "The input has texts that lines `// -----` divide",
        ))?
        .arg(switch(
            alloc,
            "verify-each",
            "Verify behind reading and each pass; so it is without this word too",
        ))?
        .arg(switch(alloc, "no-verify-each", "Don't verify"))?
        .arg(switch(
            alloc,
            "pass-statistics",
            "Tell on standard error what each pass did",
        ))?
        .arg(switch(alloc, "print-locations", "Print locations"))
}

// The command line.
fn command<'a>(alloc: Global) -> Result<Command<'a>, AllocError> {
    let command = Command::new(alloc, "ir_opt").version("0.1.0").about(
        "Reads MLIR's generic textual form, runs passes and prints what comes of it",
    );
    with_switches(alloc, with_passes(alloc, with_files(alloc, command)?)?)
}

// A file that isn't `-`.
fn file<'a>(matches: &ArgMatches<'a>, id: &str) -> Option<&'a str> {
    let name = matches.get_str(id)?;
    if name == "-" { None } else { Some(name) }
}

// The pass that a word asks for, if it asks for one.
fn pass_of(word: &str) -> Option<Pass> {
    match word {
        "--sweep" => Some(Pass::Sweep),
        "--cse" => Some(Pass::Cse),
        "--unreachable-blocks" => Some(Pass::UnreachableBlocks),
        _ => None,
    }
}

// The passes, in the order in which they are named, each as often as it is. Behind `--` all words are files.
fn passes(alloc: Global, words: &[String]) -> Result<Vec<Pass>, AllocError> {
    let mut passes = Vec::new(alloc);
    for word in words {
        if word.as_str() == "--" {
            break;
        }
        if let Some(pass) = pass_of(word.as_str()) {
            passes.push(pass)?;
        }
    }
    Ok(passes)
}

// What the matches ask for.
fn asked<'a>(
    alloc: Global,
    matches: &ArgMatches<'a>,
    words: &[String],
) -> Result<Request<'a>, AllocError> {
    let input = file(matches, "FILE");
    Ok(Request {
        input,
        output: file(matches, "output"),
        options: Options {
            name: input.unwrap_or("-"),
            passes: passes(alloc, words)?,
            splits_input: matches.get_count("split-input-file") > 0,
            verifies_each: matches.get_count("no-verify-each") == 0,
            tells_statistics: matches.get_count("pass-statistics") > 0,
            prints_locations: matches.get_count("print-locations") > 0,
        },
    })
}

/// What the words of the command line ask for.
///
/// # Errors
/// Help and the version, where they are asked for; words that mean nothing; and want of memory.
pub fn read_request<'a>(alloc: Global, words: &'a [String]) -> Result<Request<'a>, Error> {
    let matches = command(alloc)?.try_get_matches_from(words)?;
    Ok(asked(alloc, &matches, words)?)
}
