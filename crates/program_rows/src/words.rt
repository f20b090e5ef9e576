//! The words of the command line, beside those that a `clap` command reads.

use crate::fixtures::words_of;
use clap::{Arg, ArgAction, ArgMatches};
use ink_modes::{Command, Mode, command_of};
use ink_report::Flags;
use std::alloc::{AllocError, Global};
use std::test::Fail;

fn command_in(alloc: Global, words: &[&str]) -> Result<Option<Command>, AllocError> {
    let words = words_of(alloc, words)?;
    Ok(command_of(words.as_slice()))
}

fn are_no_command(alloc: Global, words: &[&str]) -> Result<bool, AllocError> {
    let command = command_in(alloc, words)?;
    Ok(command.is_none())
}

const OTHER_WORDS: &[&[&str]] = &[
    &[],
    &["fly"],
    &["run", "run"],
    &["run", "--json", "--json"],
    &["--journal"],
    &["run", "--seed", "3"],
    &["run", "--seed=3"],
    &["run", "--seed"],
    &["run", "--"],
    &["run", "--bounds", "--bounds"],
    &["print", "--bounds"],
    &["sweep", "--bounds"],
    &["sweep", "--json"],
    &["audit", "--journal"],
    &["radio", "--image"],
    &["audit", "radio"],
    &["station", "--bounds"],
    &["station", "--image"],
    &["plan", "--journal"],
    &["plan", "--json"],
    &["soak", "--seed", "5", "--image"],
    &["run", "--help"],
    &["print", "run"],
    &["print", "--json"],
    &["print", "--seed", "3"],
    &["soak"],
    &["soak", "--seed"],
    &["soak", "--seed="],
    &["soak", "--seed", "--json"],
    &["soak", "--seed", "5", "5"],
    &["soak", "--seed", "5", "--seed=5"],
    &["soak", "--seed", "12345678901"],
    &["soak", "--seed", "4294967296"],
    &["soak", "--seed=+5"],
];

#[test]
fn other_words_are_no_command(rt: HostRuntime) -> Result<(), Fail> {
    for words in OTHER_WORDS {
        assert!(rt; are_no_command(rt.alloc(), words)?);
    }
    Ok(())
}

fn same_flags(one: Flags, other: Flags) -> bool {
    let shown = one.journal == other.journal && one.json == other.json;
    shown && one.bounds == other.bounds && one.image == other.image && one.seed == other.seed
}

fn same(one: Option<Command>, other: Option<Command>) -> bool {
    match (one, other) {
        (Some(one), Some(other)) => one.mode == other.mode && same_flags(one.flags, other.flags),
        (None, None) => true,
        _ => false,
    }
}

// A command of a mode whose text may show the journal, and JSON.
fn command(mode: Mode, seed: Option<u32>, journal: bool, json: bool) -> Option<Command> {
    let flags = Flags {
        journal,
        json,
        seed,
        ..Flags::none()
    };
    Some(Command { mode, flags })
}

fn are_soak(
    alloc: Global,
    words: &[&str],
    number: u32,
    journal: bool,
    json: bool,
) -> Result<bool, AllocError> {
    let soak = command(Mode::Soak, Some(number), journal, json);
    Ok(same(command_in(alloc, words)?, soak))
}

fn are_run(alloc: Global, words: &[&str], journal: bool, json: bool) -> Result<bool, AllocError> {
    let run = command(Mode::Run, None, journal, json);
    Ok(same(command_in(alloc, words)?, run))
}

fn are_print(alloc: Global, words: &[&str]) -> Result<bool, AllocError> {
    let print = command(Mode::Print, None, false, false);
    Ok(same(command_in(alloc, words)?, print))
}

#[test]
fn words_stand_in_any_order(rt: HostRuntime) -> Result<(), Fail> {
    let alloc = rt.alloc();
    assert!(rt; are_soak(alloc, &["--seed", "05", "soak"], 5, false, false)?);
    assert!(rt;
        are_soak(
            alloc,
            &["--json", "--seed=4294967295", "soak"],
            4294967295,
            false,
            true
        )?
    );
    let words = ["--seed", "0000000007", "--journal", "soak", "--json"];
    assert!(rt; are_soak(alloc, &words, 7, true, true)?);
    assert!(rt; are_run(alloc, &["--json", "run", "--journal"], true, true)?);
    assert!(rt; are_print(alloc, &["print"])?);
    Ok(())
}

// A flag that is set by its name.
fn flag<'a>(alloc: Global, name: &'a str) -> Arg<'a> {
    Arg::new(alloc, name).long(name).action(ArgAction::SetTrue)
}

fn with_mode_and_seed<'a>(alloc: Global) -> Result<clap::Command<'a>, AllocError> {
    let mode = Arg::new(alloc, "mode")
        .required(true)
        .action(ArgAction::Set);
    let command = clap::Command::new(alloc, "ink_board").arg(mode)?;
    let seed = Arg::new(alloc, "seed").long("seed").action(ArgAction::Set);
    command.arg(seed)
}

fn with_flags<'a>(alloc: Global) -> Result<clap::Command<'a>, AllocError> {
    let command = with_mode_and_seed(alloc)?.arg(flag(alloc, "journal"))?;
    command.arg(flag(alloc, "json"))
}

// What a `clap` command with these flags reads from the words behind the program's name.
fn matches_of<'a>(alloc: Global, words: &'a [&'a str]) -> Result<ArgMatches<'a>, clap::Error> {
    with_flags(alloc)?.try_get_matches_from(words)
}

// The command that those matches ask for.
fn command_of_matches(matches: &ArgMatches<'_>) -> Option<Command> {
    let journal = matches.get_flag("journal");
    let json = matches.get_flag("json");
    match (matches.get_str("mode"), matches.get_one::<u32>("seed")) {
        (Some("run"), None) => command(Mode::Run, None, journal, json),
        (Some("print"), None) => command(Mode::Print, None, journal, json),
        (Some("soak"), seed) => command(Mode::Soak, seed, journal, json),
        _ => None,
    }
}

fn command_by_clap(alloc: Global, line: &[&str]) -> Result<Option<Command>, Fail> {
    let matches = matches_of(alloc, line)?;
    Ok(command_of_matches(&matches))
}

// Both read the same command from the words behind the first.
fn are_same(alloc: Global, line: &[&str]) -> Result<bool, Fail> {
    let command = command_in(alloc, line.get(1..).unwrap_or(&[]))?;
    Ok(command.is_some() && same(command, command_by_clap(alloc, line)?))
}

const LINES: &[&[&str]] = &[
    &["ink_board", "run"],
    &["ink_board", "print"],
    &["ink_board", "run", "--json"],
    &["ink_board", "run", "--journal"],
    &["ink_board", "soak", "--seed", "5"],
    &["ink_board", "soak", "--seed=5"],
];

#[test]
fn same_words(rt: HostRuntime) -> Result<(), Fail> {
    for line in LINES {
        assert!(rt; are_same(rt.alloc(), line)?);
    }
    Ok(())
}
