// A command that is to be accepted and has its memory.
use actor_names::{ActorKey, RecordName};
use frame_wire::Stamp;
use reminder_rows::Reminder;
use schedule_text::Moment;
use stamp_lanes::PreparedBoot;
use state_rows::PreparedTx;

// What is done for each kind of command.
#[derive(Drop)]
pub(crate) enum Step {
    Boot {
        boot: PreparedBoot,
    },
    Tx {
        stamp: Stamp,
        tx: PreparedTx,
    },
    PutReminder {
        stamp: Stamp,
        actor: ActorKey,
        name: RecordName,
        reminder: Reminder,
    },
    DeleteReminder {
        stamp: Stamp,
        actor: ActorKey,
        name: RecordName,
    },
    Fired {
        stamp: Stamp,
        actor: ActorKey,
        name: RecordName,
        moment: Moment,
        now: Moment,
    },
}

/// A command with the memory that it needs. `prepared_outcome` gives what it comes to.
#[derive(Drop)]
pub struct PreparedCommand {
    pub(crate) step: Step,
}
