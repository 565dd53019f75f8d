// Names: spaces, nodes, application ids, actor types and ids, chains and records; keys, members and addresses.
//
// Promise: a reader accepts exactly the texts of its form and names the first fault of any other; a copy is
// equal to its source. Depends on lists_and_limits.
#![tactic(auto)]

mod actor_key;
mod address;
mod byte_class;
mod error;
mod forms;
mod law;
mod member;
mod name;
mod numeral;
mod short_name;
mod slash;
mod spaced;

pub use actor_key::{ActorKey, key_fault, key_kind, local_key_fault, read_key, read_local_key};
pub use address::{Address, address_fault, read_address};
pub use error::NameError;
pub use forms::{
    ActorId, ActorType, AppId, ChainId, MOST_ACTOR_ID_BYTES, MOST_ACTOR_TYPE_BYTES,
    MOST_APP_ID_BYTES, MOST_CHAIN_ID_BYTES, MOST_NODE_BYTES, MOST_RECORD_NAME_BYTES,
    MOST_SPACE_BYTES, Node, RecordName, Space, actor_id_fault, actor_type_fault, app_id_fault,
    chain_id_fault, node_fault, read_actor_id, read_actor_type, read_app_id, read_chain_id,
    read_node, read_record_name, read_space, record_name_fault, space_fault,
};
pub use law::{address_law, member_law};
pub use lists_and_limits::{OutOfMemory, read_decimal};
pub use member::{MOST_BOOT, Member, member_fault, read_member};
pub use name::{Name, NameForm};
pub use short_name::{ShortForm, ShortName};
pub use spaced::default_space;
