//! How a command on a server ends.
#![tactic(auto, unfolding(crate::specs::Rest::report_of_change, crate::specs::Rest::report_of_up, qfs_model_actor::specs::Shown::shown_reply))]

ghost use Rattle.std.specs.Prelude.{◌≡◌};
ghost use Rattle.qfs_model_actor.specs.Shown.{kept_report};
ghost use Rattle.qfs_hiber.specs.Rest.{report_of_change};

use qfs_base::command::{Excerpt, Reply};
use qfs_base::numbers::Life;
use qfs_machine::Ending;

/// What brought a server up: it was started, or wiped, and has this life.
#[derive(Clone, Copy)]
pub enum Up {
    Started { life: Life },
    Wiped { life: Life },
}

/// How a command on a server ends.
#[derive(Clone, Copy)]
pub enum ChangeEnding {
    Stopped,
    Up(Up),
    /// The device failed.
    Fault,
    /// It is expected back at this reading of the clock.
    Hibernating { until: u64 },
    NotUp,
    Upgraded,
    Down,
    /// It ends as any command may.
    Common(Ending),
}

impl ChangeEnding {
    /// The reply of a command that ends so, as it is kept. Takes no memory.
    pub fn into_reply(self) -> Reply<Excerpt>
        ensures { result ≡ kept_report (report_of_change self) }
    {
        match self {
            ChangeEnding::Stopped => Reply::Stopped,
            ChangeEnding::Up(Up::Started { life }) => Reply::Started { life },
            ChangeEnding::Up(Up::Wiped { life }) => Reply::Wiped { life },
            ChangeEnding::Fault => Reply::Fault,
            ChangeEnding::Hibernating { until } => Reply::Hibernating { until },
            ChangeEnding::NotUp => Reply::NotUp,
            ChangeEnding::Upgraded => Reply::Upgraded,
            ChangeEnding::Down => Reply::Down,
            ChangeEnding::Common(ending) => ending.into_reply(),
        }
    }
}
