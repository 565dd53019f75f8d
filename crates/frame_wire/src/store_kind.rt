// The kinds of commands and answers of the store.
ghost use Rattle.std.specs.Prelude.{◌≡◌};
ghost use Rattle.frame_wire.specs.Kinds.{command_kind_of, command_byte, answer_kind_of, answer_byte};

// The kind of a command.
#[derive(Clone, Copy)]
pub(crate) enum CommandKind {
    Boot,
    Tx,
    Get,
    PutReminder,
    GetReminder,
    DeleteReminder,
    Due,
    Fired,
}

impl CommandKind {
    // The kind that a byte means; `None` if it means none.
    #[tactic(auto, unfolding(crate::specs::Kinds::command_kind_of))]
    pub(crate) fn of(byte: u8) -> Option<CommandKind>
        ensures { result ≡ command_kind_of byte }
    {
        match byte {
            32 => Some(CommandKind::Boot),
            33 => Some(CommandKind::Tx),
            34 => Some(CommandKind::Get),
            35 => Some(CommandKind::PutReminder),
            36 => Some(CommandKind::GetReminder),
            37 => Some(CommandKind::DeleteReminder),
            38 => Some(CommandKind::Due),
            39 => Some(CommandKind::Fired),
            _ => None,
        }
    }

    // The byte of a kind.
    pub(crate) fn byte(self) -> u8
        ensures { result ≡ command_byte self }
    {
        match self {
            CommandKind::Boot => 32,
            CommandKind::Tx => 33,
            CommandKind::Get => 34,
            CommandKind::PutReminder => 35,
            CommandKind::GetReminder => 36,
            CommandKind::DeleteReminder => 37,
            CommandKind::Due => 38,
            CommandKind::Fired => 39,
        }
    }
}

// The kind of an answer.
#[derive(Clone, Copy)]
pub(crate) enum AnswerKind {
    Booted,
    Done,
    Value,
    NotThere,
    ReminderIs,
    DueList,
    NextIs,
    Refused,
}

impl AnswerKind {
    // The kind that a byte means; `None` if it means none.
    #[tactic(auto, unfolding(crate::specs::Kinds::answer_kind_of))]
    pub(crate) fn of(byte: u8) -> Option<AnswerKind>
        ensures { result ≡ answer_kind_of byte }
    {
        match byte {
            48 => Some(AnswerKind::Booted),
            49 => Some(AnswerKind::Done),
            50 => Some(AnswerKind::Value),
            51 => Some(AnswerKind::NotThere),
            52 => Some(AnswerKind::ReminderIs),
            53 => Some(AnswerKind::DueList),
            54 => Some(AnswerKind::NextIs),
            55 => Some(AnswerKind::Refused),
            _ => None,
        }
    }

    // The byte of a kind.
    pub(crate) fn byte(self) -> u8
        ensures { result ≡ answer_byte self }
    {
        match self {
            AnswerKind::Booted => 48,
            AnswerKind::Done => 49,
            AnswerKind::Value => 50,
            AnswerKind::NotThere => 51,
            AnswerKind::ReminderIs => 52,
            AnswerKind::DueList => 53,
            AnswerKind::NextIs => 54,
            AnswerKind::Refused => 55,
        }
    }
}
