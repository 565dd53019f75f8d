// The words after `sidecar`.
ghost use Rattle.std.specs.Prelude.{◌≡◌, [], None, Some, MatchResult, map, option_map, option_and_then, string_bytes, unwrap_or};
ghost use Rattle.std.specs.Result.{result_ok};
ghost use Rattle.clap.specs.Matches.{found_of, first_value};
ghost use Rattle.actor_names.specs.Addresses.{address_reading};
ghost use Rattle.command_words.specs.declared.error.WordsError.TheVariants.{Usage};
ghost use Rattle.command_words.specs.Given.{Holds};
ghost use Rattle.command_words.specs.Options.{Given, options_given};
ghost use Rattle.command_words.specs.Reading.{sidecar_options, faultless, node_text, app_text, space_or_default, parts_or_four, seating};
ghost use Rattle.command_words.specs.Told.{told_option, told_sidecar};

use crate::count::read_positive;
use crate::error::WordsError;
use crate::matches::{read_options, text_of};
use crate::options::{CommandOption, needed, optional};
use crate::server::{address_or_none, connections_or_most, sessions_or_none};
use actor_names::{Address, NameError, app_id_fault, node_fault, read_address, space_fault};
use clap::ArgMatches;
use std::alloc::Global;

/// How many parts a sidecar has if the words don't say.
const USUAL_PARTS: u8 = 4;

/// The greatest number of parts.
const MOST_PARTS: u64 = 16;

/// What the words of `sidecar` say.
#[derive(Clone, Copy)]
pub struct SidecarWords<'a> {
    /// The text of the node, which `read_node` reads.
    pub node: &'a str,
    /// The text of the application's id, which `read_app_id` reads if there is memory.
    pub app: &'a str,
    /// The text of the space, which `read_space` reads; `default` if the words don't say.
    pub space: &'a str,
    /// Where the application is called.
    pub app_at: Address,
    /// Where the sidecar listens for its application.
    pub listen: Address,
    /// Where the sidecar listens for other sidecars.
    pub peer: Address,
    /// Where the placement is.
    pub placement: Address,
    /// Where the placement may be too, once its standby has taken its place; `None` if the words don't say.
    pub placement2: Option<Address>,
    /// Where the store is.
    pub store: Address,
    /// How many parts the sidecar has, from 1 to 16; 4 if the words don't say.
    pub parts: u8,
    /// After how many sessions the command ends, from 1; `None` if the words don't say.
    pub sessions: Option<u64>,
    /// How many connections of a port are served at once, from 1 to 4,096; 4,096 if the words don't say.
    pub connections: u64,
}

/// The options of a sidecar.
fn sidecar_options() -> [CommandOption<'static>; 12]
    ensures { map told_option result ≡ sidecar_options }
{
    [
        needed("node"),
        needed("app-id"),
        needed("app"),
        needed("listen"),
        needed("peer"),
        needed("placement"),
        optional("placement2"),
        needed("store"),
        optional("parts"),
        optional("space"),
        optional("sessions"),
        optional("connections"),
    ]
}

/// The text, if it has no fault.
fn faultless(fault: Option<NameError>, text: &str) -> Option<&str>
    ensures { option_map (λ t. t.now) result ≡ faultless fault text.now }
{
    match fault {
        None => Some(text),
        Some(_) => None,
    }
}

/// The text of a node.
fn node_text(text: &str) -> Option<&str>
    ensures { option_map (λ t. t.now) result ≡ node_text text.now }
{
    faultless(node_fault(text.as_bytes()), text)
}

/// The text of an application's id.
fn app_text(text: &str) -> Option<&str>
    ensures { option_map (λ t. t.now) result ≡ app_text text.now }
{
    faultless(app_id_fault(text.as_bytes()), text)
}

/// The text of a space, or `default`.
fn space_or_default(text: Option<&str>) -> Option<&str>
    ensures { option_map (λ t. t.now) result ≡ space_or_default (option_map (λ t. t.now) text.entry) }
{
    match text {
        None => Some("default"),
        Some(text) => faultless(space_fault(text.as_bytes()), text),
    }
}

/// The address that an option gives.
fn address_of(matches: &ArgMatches<'_>, name: &str) -> Option<Address>
    ensures { result ≡ result_ok (address_reading (unwrap_or (first_value (found_of matches.now) name.now) [])) }
{
    read_address(text_of(matches, name).as_bytes()).ok()
}

/// The number of parts from 1 to 16, or 4.
fn parts_or_four(text: Option<&str>) -> Option<u8>
    ensures { result ≡ parts_or_four (option_map (λ t. t.now) text.entry) }
{
    match text {
        None => Some(USUAL_PARTS),
        Some(text) => {
            let parts = read_positive(text.as_bytes(), MOST_PARTS)?;
            Some(parts as u8)
        }
    }
}

/// What the options of a sidecar say.
fn seating<'a>(matches: &ArgMatches<'a>) -> Option<SidecarWords<'a>>
    ensures { (given : Given) → Holds sidecar_options given matches.now → option_map told_sidecar result ≡ seating given }
{
    let node = node_text(text_of(matches, "node"))?;
    let app = app_text(text_of(matches, "app-id"))?;
    let space = space_or_default(matches.get_str("space"))?;
    let app_at = address_of(matches, "app")?;
    let listen = address_of(matches, "listen")?;
    let peer = address_of(matches, "peer")?;
    let placement = address_of(matches, "placement")?;
    let placement2 = address_or_none(matches.get_str("placement2"))?;
    let store = address_of(matches, "store")?;
    let parts = parts_or_four(matches.get_str("parts"))?;
    let sessions = sessions_or_none(matches.get_str("sessions"))?;
    let connections = connections_or_most(matches.get_str("connections"))?;
    Some(SidecarWords {
        node,
        app,
        space,
        app_at,
        listen,
        peer,
        placement,
        placement2,
        store,
        parts,
        sessions,
        connections,
    })
}

/// The words after `sidecar`.
pub(crate) fn sidecar_words<'a>(
    alloc: Global,
    words: &'a [String],
) -> Result<SidecarWords<'a>, WordsError>
    ensures { MatchResult result
        (λ s. option_and_then seating (options_given sidecar_options (map string_bytes words.entry.now)) ≡ Some (told_sidecar s))
        (λ e. e ≡ Usage → option_and_then seating (options_given sidecar_options (map string_bytes words.entry.now)) ≡ None) }
{
    let options = sidecar_options();
    let matches = read_options(alloc, "sidecar", options.as_slice(), words)?;
    match seating(&matches) {
        None => Err(WordsError::Usage),
        Some(words) => Ok(words),
    }
}
