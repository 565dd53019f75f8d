// HTTP messages, what is said to applications, JSON texts, the actors API and what is told of a room, as a table: each line
// of the input is a case, and the line printed for it is its answer. Bytes other than printable ones are written `\r`, `\n`
// and `\xHH`, a backslash too.
//
// HTTP messages. A request is told as `METHOD TARGET [NAME=VALUE;..] BODY`, with ` close` if no request follows; a reply as
// `STATUS [NAME=VALUE;..] BODY`.
//
//     request BYTES                            what the first read of these bytes answers, and at how many cuts that, or that
//                                              it is cut
//     head COUNT                               the same, without cuts, of so many bytes that begin a head
//     fields COUNT                             the same of a head with so many fields
//     stream COUNT BYTES                       what so many reads answer
//     fault CALL COUNT BYTES                   the same if this call of the connection fails
//     response STATUS|NAME|VALUE|BODY          what is written of a response with this field, or without one if NAME is empty
//     unwritten CALL                           what the writing of a response answers if this call of the connection fails
//     reply BYTES                              what an exchange answers to these bytes, and at how many cuts that, or that
//                                              they are cut
//     ended BYTES                              the same, without cuts, of a reply that ends with the input
//     exchange BODY|BYTES                      what an exchange writes, and the body of the reply
//     broken CALL BYTES                        what an exchange answers if this call of the connection fails
//
// Applications and other sidecars. An empty CHAIN, DATA, WORD or OWNER stands for none. FIELDS are `NAME:VALUE`, joined by
// commas.
//
//     config BODY                                               the settings that a configuration says
//     many COUNT MORE                                           the same of COUNT types, the first one twice, and MORE
//     app-reply WORD|OWNER                                      what another sidecar's reply with these fields says
//     call APP|ACTOR|METHOD|CHAIN|FIELDS|BODY                   the request of a call
//     app-reminder APP|ACTOR|NAME|CHAIN|DATA|DUE|PERIOD         the request of a reminder's callback
//     app-timer APP|ACTOR|NAME|CHAIN|DATA|DUE|PERIOD|METHOD     the request of a timer's callback
//     end APP|ACTOR                                             the request that ends an activation
//     ask APP                                                   the question for the configuration
//     app-peer OWNER|LEAST|CALL|FIELDS|BODY                     the request of a call that is handed on under a name
//
// JSON texts and bodies.
//
//     json BYTES                               the text of the JSON value that the bytes are
//     arrays COUNT                             the same of so many arrays, each inside the one before
//     whole BYTES                              what each look-up finds in the value
//     member KEY BYTES                         the same of the member with this key
//     item INDEX BYTES                         the same of the item there
//     quoted BYTES                             the text in quotes
//     array PIECE ..                           the text of an array; a piece is `kept:TEXT`, `text:TEXT`, `null:` or
//                                              `natural:NUMBER`
//     object KEY=PIECE ..                      the text of an object
//     operations BYTES                         the operations of a transaction
//     deep COUNT                               the same of one that sets a value of so many arrays
//     deletes COUNT                            the same of a delete without a key and so many others
//     reminder BYTES                           a reminder as it is told
//     timer BYTES                              the callback, the due time and the payload of a timer
//
// The actors API, and rooms.
//
//     caller METHOD|TARGET|NAME|VALUE|BYTES    what a caller's request with this field asks for, or its refusal
//     peer METHOD|TARGET|NAME|VALUE|BYTES      the same of another sidecar's request
//     refusal NAME NUMBER ..                   the status and the body of a refusal; `Moved` is at the versions 1 to 8
//     refused NAME NUMBER ..                   how many fields another sidecar is told of it, and the last one
//     elsewhere VERSION MEMBER APP ADDRESS     status and number of fields of a reply with an owner, and the owner
//     room METHOD|TARGET                       the space whose state a request asks for; behind `rounds`, the one whose round
//     state VERSION MEMBER|APP|TYPES ..        the body for a room with these hosts
//     rounds VERSION none                      the body for a room without a round
//     rounds VERSION STAGE MEMBER|ADDRESS ..   the body for a room whose round waits for these members
//
// It has no contracts of its own. Depends on actors_api, placement_sessions, placement_node, api_bodies, app_texts,
// http_edge, json_text, place_table, timer_book, reminder_rows, state_rows, schedule_text, actor_names, actor_ports and
// case_texts.
#![tactic(auto)]

mod api;
mod applications;
mod bodies;
mod case;
mod messages;
mod parts;
mod rooms;
mod values;

use std::io;

fn main(rt: HostRuntime) -> io::Result<()> {
    for line in rt.lines(rt.alloc()) {
        match case::answer(rt.alloc(), line?.as_str()) {
            Some(answer) => println!(rt; "{answer}")?,
            None => println!(rt; "no case, or out of memory")?,
        }
    }
    Ok(())
}
