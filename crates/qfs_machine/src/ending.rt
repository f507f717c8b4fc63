//! How any command may end, whatever it does.
#![tactic(auto, unfolding(crate::specs::Endings::ending_of_meta, crate::specs::Endings::ending_of_chunk, crate::specs::Endings::report_of_ending, qfs_model_actor::specs::Shown::shown_reply))]

ghost use Rattle.std.specs.Prelude.{◌≡◌};
ghost use Rattle.qfs_model_actor.specs.Shown.{kept_report};
ghost use Rattle.qfs_machine.specs.Endings.{ending_of_meta, ending_of_chunk, report_of_ending};

use qfs_base::command::{Excerpt, Reply};
use qfs_base::numbers::Turn;
use qfs_base::reply::{ChunkAnswer, MetaReply};

/// What ends every command. All but `Dropped` and `Unnamed` end it once it has given back what it
/// holds.
#[derive(Clone, Copy)]
pub enum Ending {
    /// The actor had been dropped at this turn.
    Dropped { turn: Turn },
    LogFault,
    NoMemory,
    /// The metaserver's newest disk goes wrong at this offset.
    BadLog { right: bool, offset: u64 },
    /// A node answered something that its request doesn't allow.
    Unnamed,
}

impl Ending {
    /// How an answer of the metaserver ends a command, whatever it is; None where the command says
    /// what follows.
    pub fn of_meta(answer: &MetaReply) -> Option<Ending>
        ensures { result ≡ ending_of_meta answer.now }
    {
        match answer {
            MetaReply::Dropped { turn } => Some(Ending::Dropped { turn: *turn }),
            MetaReply::LogFault => Some(Ending::LogFault),
            MetaReply::NoMemory => Some(Ending::NoMemory),
            MetaReply::BadLog { right, offset } => Some(Ending::BadLog {
                right: *right,
                offset: *offset,
            }),
            _ => None,
        }
    }

    /// The same of an answer of a chunk server.
    pub fn of_chunk(answer: &ChunkAnswer) -> Option<Ending>
        ensures { result ≡ ending_of_chunk answer.now }
    {
        match answer {
            ChunkAnswer::NoMemory => Some(Ending::NoMemory),
            _ => None,
        }
    }

    /// The reply of a command that ends so, as it is kept. Takes no memory.
    pub fn into_reply(self) -> Reply<Excerpt>
        ensures { result ≡ kept_report (report_of_ending self) }
    {
        match self {
            Ending::Dropped { turn } => Reply::Dropped { turn },
            Ending::LogFault => Reply::LogFault,
            Ending::NoMemory => Reply::NoMemory,
            Ending::BadLog { right, offset } => Reply::BadLog { right, offset },
            Ending::Unnamed => Reply::Unnamed,
        }
    }
}
