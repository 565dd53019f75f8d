// The kinds of frames.
ghost use Rattle.std.specs.Prelude.{◌≡◌};
ghost use Rattle.wire_fields.specs.Fields.{row_of};
ghost use Rattle.frame_wire.specs.Kinds.{kinds, store_kind_of, kind_of, byte_of};

use crate::store_kind::{AnswerKind, CommandKind};

// The kind of a frame: the first byte behind the length, which says what fields follow.
#[derive(Clone, Copy)]
pub(crate) enum Kind {
    Register,
    Beat,
    Ack,
    Leave,
    Lock,
    Update,
    Unlock,
    Idle,
    Refused,
    Gone,
    FencedTx,
    MirrorWrite,
    MirrorCut,
    MirrorSync,
    MirrorDone,
    MirrorFault,
    Command { kind: CommandKind },
    Answer { kind: AnswerKind },
}

// The kind of a frame that is no command that a journal keeps, and no answer of the store.
fn plain_kind_of(byte: u8) -> Option<Kind>
    ensures { result ≡ row_of kinds byte }
{
    match byte {
        1 => Some(Kind::Register),
        2 => Some(Kind::Beat),
        3 => Some(Kind::Ack),
        4 => Some(Kind::Leave),
        16 => Some(Kind::Lock),
        17 => Some(Kind::Update),
        18 => Some(Kind::Unlock),
        19 => Some(Kind::Idle),
        20 => Some(Kind::Refused),
        21 => Some(Kind::Gone),
        40 => Some(Kind::FencedTx),
        64 => Some(Kind::MirrorWrite),
        65 => Some(Kind::MirrorCut),
        66 => Some(Kind::MirrorSync),
        67 => Some(Kind::MirrorDone),
        68 => Some(Kind::MirrorFault),
        _ => None,
    }
}

// The kind of a command that a journal keeps, or of an answer of the store.
fn store_kind_of(byte: u8) -> Option<Kind>
    ensures { result ≡ store_kind_of byte }
{
    match CommandKind::of(byte) {
        Some(kind) => Some(Kind::Command { kind }),
        None => match AnswerKind::of(byte) {
            Some(kind) => Some(Kind::Answer { kind }),
            None => None,
        },
    }
}

impl Kind {
    // The kind that a byte means; `None` if it means none.
    #[tactic(auto, unfolding(crate::specs::Kinds::kind_of))]
    pub(crate) fn of(byte: u8) -> Option<Kind>
        ensures { result ≡ kind_of byte }
    {
        match plain_kind_of(byte) {
            Some(kind) => Some(kind),
            None => store_kind_of(byte),
        }
    }

    // The byte of a kind.
    pub(crate) fn byte(self) -> u8
        ensures { result ≡ byte_of self }
    {
        match self {
            Kind::Register => 1,
            Kind::Beat => 2,
            Kind::Ack => 3,
            Kind::Leave => 4,
            Kind::Lock => 16,
            Kind::Update => 17,
            Kind::Unlock => 18,
            Kind::Idle => 19,
            Kind::Refused => 20,
            Kind::Gone => 21,
            Kind::FencedTx => 40,
            Kind::MirrorWrite => 64,
            Kind::MirrorCut => 65,
            Kind::MirrorSync => 66,
            Kind::MirrorDone => 67,
            Kind::MirrorFault => 68,
            Kind::Command { kind } => kind.byte(),
            Kind::Answer { kind } => kind.byte(),
        }
    }
}
