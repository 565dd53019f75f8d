// The words of the command line.
ghost use Rattle.std.specs.Prelude.{◌≡◌, true, None, Some, IfOk, IfErr, MatchResult, map, option_map, option_and_then, string_bytes};
ghost use Rattle.command_words.specs.declared.error.WordsError.TheVariants.{Usage, OutOfMemory};
ghost use Rattle.command_words.specs.Given.{Holds};
ghost use Rattle.command_words.specs.Options.{Given, options_given};
ghost use Rattle.command_words.specs.Reading.{reading, has_options, replay_said, schedule_said, schedule_options, count_or_ten, drill_said, drill_options, placement_said, store_said, sidecar_said, standby_said, placement_options, server_options, sidecar_options, standby_options, served_by, is_server};
ghost use Rattle.command_words.specs.Told.{told, told_option};

use crate::count::{read_count, read_number};
use crate::error::WordsError;
use crate::matches::{read_options, text_of};
use crate::options::{CommandOption, needed, optional};
use crate::server::{
    PlacementWords, ServerWords, StandbyWords, placement_words, standby_words, store_words,
};
use crate::sidecar::{SidecarWords, sidecar_words};
use clap::ArgMatches;
use std::alloc::Global;

/// How many moments are asked for if the words don't say.
const USUAL_COUNT: u32 = 10;

/// The greatest number of steps of a drill.
const MOST_STEPS: u64 = 200_000;

/// What the words of `schedule` say. A text that isn't given is empty.
#[derive(Clone, Copy)]
pub struct ScheduleWords<'a> {
    /// The text of the moment at which the schedule is read.
    pub now: &'a str,
    /// The text of the first moment.
    pub due: &'a str,
    /// The text of the period.
    pub period: &'a str,
    /// The text of the end.
    pub ttl: &'a str,
    /// How many moments are asked for, from 1 to 1,000.
    pub count: u32,
}

/// What the words of `drill` say.
#[derive(Clone, Copy)]
pub struct DrillWords {
    /// The seed of the generator.
    pub seed: u64,
    /// How many steps are taken, up to 200,000.
    pub steps: u32,
}

/// A command with what its words say.
#[derive(Clone, Copy)]
pub enum CommandWords<'a> {
    /// `replay`: replay the script from the input.
    Replay,
    /// `schedule`: print the moments of a schedule.
    Schedule(ScheduleWords<'a>),
    /// `drill`: run a random list of events of a cluster.
    Drill(DrillWords),
    /// `placement`: serve the placement of actors.
    Placement(PlacementWords<'a>),
    /// `store`: serve the state and the reminders of actors.
    Store(ServerWords<'a>),
    /// `sidecar`: serve the actors of an application.
    Sidecar(SidecarWords<'a>),
    /// `standby`: keep a copy of a placement's journal.
    Standby(StandbyWords<'a>),
}

/// The options of `schedule`.
fn schedule_options() -> [CommandOption<'static>; 5]
    ensures { map told_option result ≡ schedule_options }
{
    [
        needed("now"),
        optional("due"),
        optional("period"),
        optional("ttl"),
        optional("count"),
    ]
}

/// The count that is given, or 10.
fn count_or_ten(text: Option<&str>) -> Option<u32>
    ensures { result ≡ count_or_ten (option_map (λ t. t.now) text.entry) }
{
    match text {
        None => Some(USUAL_COUNT),
        Some(text) => read_count(text.as_bytes()),
    }
}

/// The words after `schedule`.
fn schedule_words<'a>(alloc: Global, words: &'a [String]) -> Result<CommandWords<'a>, WordsError>
    ensures { MatchResult result
        (λ c. option_and_then schedule_said (options_given schedule_options (map string_bytes words.entry.now)) ≡ Some (told c))
        (λ e. e ≡ Usage → option_and_then schedule_said (options_given schedule_options (map string_bytes words.entry.now)) ≡ None) }
{
    let options = schedule_options();
    let matches = read_options(alloc, "schedule", options.as_slice(), words)?;
    match count_or_ten(matches.get_str("count")) {
        None => Err(WordsError::Usage),
        Some(count) => Ok(CommandWords::Schedule(ScheduleWords {
            now: text_of(&matches, "now"),
            due: text_of(&matches, "due"),
            period: text_of(&matches, "period"),
            ttl: text_of(&matches, "ttl"),
            count,
        })),
    }
}

/// The options of `drill`.
fn drill_options() -> [CommandOption<'static>; 2]
    ensures { map told_option result ≡ drill_options }
{
    [needed("seed"), needed("steps")]
}

/// What the options of `drill` say.
fn drill_of<'a>(matches: &ArgMatches<'a>) -> Option<CommandWords<'a>>
    ensures { (given : Given) → Holds drill_options given matches.now → option_map told result ≡ drill_said given }
{
    let seed = read_number(text_of(matches, "seed").as_bytes(), u64::MAX)?;
    let steps = read_number(text_of(matches, "steps").as_bytes(), MOST_STEPS)?;
    Some(CommandWords::Drill(DrillWords {
        seed,
        steps: steps as u32,
    }))
}

/// The words after `drill`.
fn drill_words<'a>(alloc: Global, words: &'a [String]) -> Result<CommandWords<'a>, WordsError>
    ensures { MatchResult result
        (λ c. option_and_then drill_said (options_given drill_options (map string_bytes words.entry.now)) ≡ Some (told c))
        (λ e. e ≡ Usage → option_and_then drill_said (options_given drill_options (map string_bytes words.entry.now)) ≡ None) }
{
    let options = drill_options();
    let matches = read_options(alloc, "drill", options.as_slice(), words)?;
    match drill_of(&matches) {
        None => Err(WordsError::Usage),
        Some(words) => Ok(words),
    }
}

/// The command `placement` with the words after its name.
fn placement_command<'a>(alloc: Global, words: &'a [String]) -> Result<CommandWords<'a>, WordsError>
    ensures { MatchResult result
        (λ c. option_and_then placement_said (options_given placement_options (map string_bytes words.entry.now)) ≡ Some (told c))
        (λ e. e ≡ Usage → option_and_then placement_said (options_given placement_options (map string_bytes words.entry.now)) ≡ None) }
{
    match placement_words(alloc, words) {
        Ok(words) => Ok(CommandWords::Placement(words)),
        Err(error) => Err(error),
    }
}

/// The command `store` with the words after its name.
fn store_command<'a>(alloc: Global, words: &'a [String]) -> Result<CommandWords<'a>, WordsError>
    ensures { MatchResult result
        (λ c. option_and_then store_said (options_given server_options (map string_bytes words.entry.now)) ≡ Some (told c))
        (λ e. e ≡ Usage → option_and_then store_said (options_given server_options (map string_bytes words.entry.now)) ≡ None) }
{
    match store_words(alloc, words) {
        Ok(words) => Ok(CommandWords::Store(words)),
        Err(error) => Err(error),
    }
}

/// The command `sidecar` with the words after its name.
fn sidecar_command<'a>(alloc: Global, words: &'a [String]) -> Result<CommandWords<'a>, WordsError>
    ensures { MatchResult result
        (λ c. option_and_then sidecar_said (options_given sidecar_options (map string_bytes words.entry.now)) ≡ Some (told c))
        (λ e. e ≡ Usage → option_and_then sidecar_said (options_given sidecar_options (map string_bytes words.entry.now)) ≡ None) }
{
    match sidecar_words(alloc, words) {
        Ok(words) => Ok(CommandWords::Sidecar(words)),
        Err(error) => Err(error),
    }
}

/// The command `standby` with the words after its name.
fn standby_command<'a>(alloc: Global, words: &'a [String]) -> Result<CommandWords<'a>, WordsError>
    ensures { MatchResult result
        (λ c. option_and_then standby_said (options_given standby_options (map string_bytes words.entry.now)) ≡ Some (told c))
        (λ e. e ≡ Usage → option_and_then standby_said (options_given standby_options (map string_bytes words.entry.now)) ≡ None) }
{
    match standby_words(alloc, words) {
        Ok(words) => Ok(CommandWords::Standby(words)),
        Err(error) => Err(error),
    }
}

/// A server, `placement`, `store`, `sidecar` or `standby`, with the words after its name.
fn server_command<'a>(
    alloc: Global,
    command: &str,
    words: &'a [String],
) -> Result<CommandWords<'a>, WordsError>
    ensures said { MatchResult result
        (λ c. served_by command.now (map string_bytes words.entry.now) ≡ Some (told c))
        (λ e. e ≡ Usage → served_by command.now (map string_bytes words.entry.now) ≡ None) }
    ensures memory { IfErr result (λ e. e ≡ OutOfMemory → is_server command.now ≡ true) }
{
    if command == "placement" {
        return placement_command(alloc, words);
    }
    if command == "store" {
        return store_command(alloc, words);
    }
    if command == "sidecar" {
        return sidecar_command(alloc, words);
    }
    if command == "standby" {
        return standby_command(alloc, words);
    }
    Err(WordsError::Usage)
}

/// The words after `replay`: none.
fn replay_words<'a>(words: &'a [String]) -> Result<CommandWords<'a>, WordsError>
    ensures { MatchResult result
        (λ c. replay_said (map string_bytes words.entry.now) ≡ Some (told c))
        (λ e. (e ≡ Usage) × (replay_said (map string_bytes words.entry.now) ≡ None)) }
{
    match words {
        [] => Ok(CommandWords::Replay),
        _ => Err(WordsError::Usage),
    }
}

/// Reads the words after the program's name: the first is the command, `replay` without options, `schedule` with
/// `--now M` and perhaps `--due T`, `--period T`, `--ttl T` and `--count N`, N from 1 to 1,000 and 10 if it isn't
/// given, `drill` with `--seed N`, below 2^64, and `--steps N`, up to 200,000, or `placement` or `store` with
/// `--journal PATH`, of at least one byte, `--listen ADDR`, an address and a port, and perhaps `--new`, `--sessions N`, N
/// from 1 and below 2^64, and `--connections N`, from 1 to 4,096 and 4,096 if it isn't given; `placement` perhaps with
/// `--http ADDR` and `--standby ADDR`; or `sidecar` with `--node N` and `--app-id A`, each of 1 to 64 lowercase letters,
/// digits and `-`, `--app ADDR`, `--listen ADDR`, `--peer ADDR`, `--placement ADDR`, `--store ADDR`, and perhaps
/// `--placement2 ADDR`, `--parts P`, from 1 to 16 and 4 if it isn't given, `--space S`, of the form of a node and `default`
/// if it isn't given, `--sessions N` and `--connections N`; or `standby` with `--journal PATH`, `--listen ADDR` and perhaps
/// `--sessions N`. Options are written `--name value` or `--name=value`, in any order,
/// each at most once, and `--new` without a value; a value that is a word of its own doesn't begin with `-`. Help and
/// version words have no reading. Own.
pub fn read_words<'a>(alloc: Global, words: &'a [String]) -> Result<CommandWords<'a>, WordsError>
    // The command is what the words read as.
    ensures read { IfOk result (λ c. reading (map string_bytes words.entry.now) ≡ Some (told c)) }
    // Only words without a reading are refused, and only those of a command with options may run out of memory.
    ensures usage { IfErr result (λ e. e ≡ Usage → reading (map string_bytes words.entry.now) ≡ None) }
    ensures memory { IfErr result (λ e. e ≡ OutOfMemory → has_options (map string_bytes words.entry.now) ≡ true) }
{
    match words {
        [] => Err(WordsError::Usage),
        [command, rest @ ..] => {
            if command.as_str() == "replay" {
                return replay_words(rest);
            }
            if command.as_str() == "schedule" {
                return schedule_words(alloc, rest);
            }
            if command.as_str() == "drill" {
                return drill_words(alloc, rest);
            }
            server_command(alloc, command.as_str(), rest)
        }
    }
}
