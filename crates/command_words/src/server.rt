// The words after the name of a server: `placement`, `store` or `standby`.
ghost use Rattle.std.specs.Prelude.{◌≡◌, Some, None, MatchResult, map, option_map, option_and_then, string_bytes};
ghost use Rattle.command_words.specs.declared.error.WordsError.TheVariants.{Usage};
ghost use Rattle.command_words.specs.Given.{Holds};
ghost use Rattle.command_words.specs.Options.{Given, options_given};
ghost use Rattle.command_words.specs.Reading.{server_options, placement_options, standby_options, filled_text, sessions_or_none, connections_or_most, address_or_none, hosting, placing, standing};
ghost use Rattle.command_words.specs.Told.{told_option, told_server, told_placement, told_standby};

use crate::count::read_positive;
use crate::error::WordsError;
use crate::matches::{read_options, text_of};
use crate::options::{CommandOption, flag, needed, optional};
use actor_names::{Address, read_address};
use clap::ArgMatches;
use std::alloc::Global;

/// How many connections of a port are served at once at most, and if the words don't say.
const MOST_CONNECTIONS: u64 = 4_096;

/// What the words of a server say.
#[derive(Clone, Copy)]
pub struct ServerWords<'a> {
    /// The path of the journal, at least one byte; a store's second file has `.2` behind it.
    pub journal: &'a str,
    /// Where the service listens.
    pub listen: Address,
    /// Whether the journal may be made if its file has none.
    pub is_new: bool,
    /// After how many connections the service ends, from 1; `None` if the words don't say.
    pub sessions: Option<u64>,
    /// How many connections of a port are served at once, from 1 to 4,096; 4,096 if the words don't say.
    pub connections: u64,
}

/// What the words of `placement` say.
#[derive(Clone, Copy)]
pub struct PlacementWords<'a> {
    /// What they say as those of a server.
    pub server: ServerWords<'a>,
    /// Where the placement's state is asked for over HTTP; `None` if the words don't say.
    pub http: Option<Address>,
    /// Where the standby of its journal listens; `None` if it has none.
    pub standby: Option<Address>,
}

/// What the words of `standby` say.
#[derive(Clone, Copy)]
pub struct StandbyWords<'a> {
    /// The path of the standby's file, at least one byte.
    pub journal: &'a str,
    /// Where it listens for the placement.
    pub listen: Address,
    /// After how many sessions the command ends, from 1; `None` if the words don't say.
    pub sessions: Option<u64>,
}

/// The options of a store.
fn server_options() -> [CommandOption<'static>; 5]
    ensures { map told_option result ≡ server_options }
{
    [
        needed("journal"),
        needed("listen"),
        flag("new"),
        optional("sessions"),
        optional("connections"),
    ]
}

/// The options of a placement.
fn placement_options() -> [CommandOption<'static>; 7]
    ensures { map told_option result ≡ placement_options }
{
    [
        needed("journal"),
        needed("listen"),
        optional("http"),
        optional("standby"),
        flag("new"),
        optional("sessions"),
        optional("connections"),
    ]
}

/// The options of a standby.
fn standby_options() -> [CommandOption<'static>; 3]
    ensures { map told_option result ≡ standby_options }
{
    [needed("journal"), needed("listen"), optional("sessions")]
}

/// The text, if it has at least one byte.
fn filled_text(text: &str) -> Option<&str>
    ensures { option_map (λ t. t.now) result ≡ filled_text text.now }
{
    if text.is_empty() { None } else { Some(text) }
}

/// No number of sessions, or one from 1.
pub(crate) fn sessions_or_none(text: Option<&str>) -> Option<Option<u64>>
    ensures { result ≡ sessions_or_none (option_map (λ t. t.now) text.entry) }
{
    match text {
        None => Some(None),
        Some(text) => {
            let sessions = read_positive(text.as_bytes(), u64::MAX)?;
            Some(Some(sessions))
        }
    }
}

/// The number of connections from 1 to 4,096, or 4,096.
pub(crate) fn connections_or_most(text: Option<&str>) -> Option<u64>
    ensures { result ≡ connections_or_most (option_map (λ t. t.now) text.entry) }
{
    match text {
        None => Some(MOST_CONNECTIONS),
        Some(text) => read_positive(text.as_bytes(), MOST_CONNECTIONS),
    }
}

/// No address, or one.
pub(crate) fn address_or_none(text: Option<&str>) -> Option<Option<Address>>
    ensures { result ≡ address_or_none (option_map (λ t. t.now) text.entry) }
{
    match text {
        None => Some(None),
        Some(text) => {
            let address = read_address(text.as_bytes()).ok()?;
            Some(Some(address))
        }
    }
}

/// What the options of a server say.
fn hosting<'a>(matches: &ArgMatches<'a>) -> Option<ServerWords<'a>>
    ensures server { (given : Given) → Holds server_options given matches.now → option_map told_server result ≡ hosting given }
    ensures placement { (given : Given) → Holds placement_options given matches.now → option_map told_server result ≡ hosting given }
{
    let journal = filled_text(text_of(matches, "journal"))?;
    let listen = read_address(text_of(matches, "listen").as_bytes()).ok()?;
    let sessions = sessions_or_none(matches.get_str("sessions"))?;
    let connections = connections_or_most(matches.get_str("connections"))?;
    Some(ServerWords {
        journal,
        listen,
        is_new: matches.get_flag("new"),
        sessions,
        connections,
    })
}

/// What the options of a placement say.
fn placing<'a>(matches: &ArgMatches<'a>) -> Option<PlacementWords<'a>>
    ensures { (given : Given) → Holds placement_options given matches.now → option_map told_placement result ≡ placing given }
{
    let server = hosting(matches)?;
    let http = address_or_none(matches.get_str("http"))?;
    let standby = address_or_none(matches.get_str("standby"))?;
    Some(PlacementWords {
        server,
        http,
        standby,
    })
}

/// What the options of a standby say.
fn standing<'a>(matches: &ArgMatches<'a>) -> Option<StandbyWords<'a>>
    ensures { (given : Given) → Holds standby_options given matches.now → option_map told_standby result ≡ standing given }
{
    let journal = filled_text(text_of(matches, "journal"))?;
    let listen = read_address(text_of(matches, "listen").as_bytes()).ok()?;
    let sessions = sessions_or_none(matches.get_str("sessions"))?;
    Some(StandbyWords {
        journal,
        listen,
        sessions,
    })
}

/// The words after `placement`.
pub(crate) fn placement_words<'a>(
    alloc: Global,
    words: &'a [String],
) -> Result<PlacementWords<'a>, WordsError>
    ensures { MatchResult result
        (λ p. option_and_then placing (options_given placement_options (map string_bytes words.entry.now)) ≡ Some (told_placement p))
        (λ e. e ≡ Usage → option_and_then placing (options_given placement_options (map string_bytes words.entry.now)) ≡ None) }
{
    let options = placement_options();
    let matches = read_options(alloc, "placement", options.as_slice(), words)?;
    match placing(&matches) {
        None => Err(WordsError::Usage),
        Some(words) => Ok(words),
    }
}

/// The words after `store`.
pub(crate) fn store_words<'a>(
    alloc: Global,
    words: &'a [String],
) -> Result<ServerWords<'a>, WordsError>
    ensures { MatchResult result
        (λ p. option_and_then hosting (options_given server_options (map string_bytes words.entry.now)) ≡ Some (told_server p))
        (λ e. e ≡ Usage → option_and_then hosting (options_given server_options (map string_bytes words.entry.now)) ≡ None) }
{
    let options = server_options();
    let matches = read_options(alloc, "store", options.as_slice(), words)?;
    match hosting(&matches) {
        None => Err(WordsError::Usage),
        Some(words) => Ok(words),
    }
}

/// The words after `standby`.
pub(crate) fn standby_words<'a>(
    alloc: Global,
    words: &'a [String],
) -> Result<StandbyWords<'a>, WordsError>
    ensures { MatchResult result
        (λ s. option_and_then standing (options_given standby_options (map string_bytes words.entry.now)) ≡ Some (told_standby s))
        (λ e. e ≡ Usage → option_and_then standing (options_given standby_options (map string_bytes words.entry.now)) ≡ None) }
{
    let options = standby_options();
    let matches = read_options(alloc, "standby", options.as_slice(), words)?;
    match standing(&matches) {
        None => Err(WordsError::Usage),
        Some(words) => Ok(words),
    }
}
