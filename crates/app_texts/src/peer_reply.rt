// What another sidecar answers to a call that was handed on.
ghost use Rattle.std.specs.Prelude.{◌≡◌, IfOk};
ghost use Rattle.app_texts.specs.PeerReplies.{owner_in, elsewhere_as, refusal_as, reply_reading, GivesReply};
ghost use Rattle.app_texts.specs.Words.{word_of};

use crate::fields::first_value;
use crate::owner::read_owner;
use crate::word::{RefusalWord, read_word};
use http_edge::HttpResponse;
use lists_and_limits::OutOfMemory;
use place_table::HostInfo;
use std::alloc::Global;

/// What another sidecar's reply says.
#[derive(Drop)]
pub enum PeerReply {
    /// It is the application's reply.
    Application,
    /// The other sidecar refused the call; status and body are to be passed on.
    Refusal { word: RefusalWord },
    /// By the table of this version the actor belongs to another member, whose types aren't told.
    Elsewhere { version: u64, owner: HostInfo },
    /// The word is unknown, or the owner can't be read.
    Unreadable,
    /// There was no memory for the owner.
    OutOfMemory,
}

// The owner that a reply tells.
fn owner_in(alloc: Global, reply: &HttpResponse) -> Result<Option<(u64, HostInfo)>, OutOfMemory>
    ensures { IfOk result (λ owner. owner ≡ owner_in reply.now) }
{
    match first_value(b"Actors-Owner", reply.fields.as_slice()) {
        None => Ok(None),
        Some(text) => read_owner(alloc, text),
    }
}

fn elsewhere(alloc: Global, reply: &HttpResponse) -> PeerReply
    ensures { GivesReply (elsewhere_as (owner_in reply.now)) result }
{
    match owner_in(alloc, reply) {
        Err(_) => PeerReply::OutOfMemory,
        Ok(None) => PeerReply::Unreadable,
        Ok(Some((version, owner))) => PeerReply::Elsewhere { version, owner },
    }
}

fn refusal(word: &[u8]) -> PeerReply
    ensures { GivesReply (refusal_as (word_of word.now)) result }
{
    match read_word(word) {
        None => PeerReply::Unreadable,
        Some(word) => PeerReply::Refusal { word },
    }
}

/// Reads another sidecar's reply. Names of fields are compared without regard to case, and of two fields of one name
/// the first counts; the status isn't looked at.
#[tactic(auto, unfolding(crate::specs::PeerReplies::reply_reading))]
pub fn read_peer_reply(alloc: Global, reply: &HttpResponse) -> PeerReply
    ensures { GivesReply (reply_reading reply.now) result }
{
    match first_value(b"Actors-Refusal", reply.fields.as_slice()) {
        None => PeerReply::Application,
        Some(word) => {
            if word == b"elsewhere".as_slice() {
                elsewhere(alloc, reply)
            } else {
                refusal(word)
            }
        }
    }
}
