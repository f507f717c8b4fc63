//! The rows of the input, a line each:
//!
//! - `new`: another script and another history, which is empty;
//! - `phase`, `actor`, and then line by line the commands of this actor of the script: `tick`, or
//!   the recipe of a put;
//! - `history N ENTRY`: the next entry of the history, as the output of a run tells it;
//! - `at N COMMAND`: what a command answers at this place. Its line is that of actor 1, whose
//!   commands have numbers from 1 on since the last `new`.

use crate::history::entry_of;
use crate::puts::command_of;
use crate::replies::{asked, line_of};
use crate::words::{Bad, cut, number};
use qfs_base::command::Command;
use qfs_base::history::History;
use qfs_base::layout::Layout;
use qfs_base::listing::Listing;
use qfs_base::script::{Commands, Phase, Script};
use qfs_files::reply_at;
use std::alloc::{AllocError, Global};

/// What the rows said since the last `new`.
#[derive(Drop)]
pub struct Rows {
    script: Script,
    history: History,
    command: u16,
    /// How many commands were asked.
    pub asked: u64,
}

impl Rows {
    /// No rows so far.
    pub fn new(alloc: Global) -> Rows {
        Rows {
            script: empty_script(alloc),
            history: Listing::new(alloc),
            command: 0,
            asked: 0,
        }
    }

    /// Takes a line, and gives what is to be printed: nothing for one that is empty or a comment.
    pub fn take(&mut self, alloc: Global, line: &str) -> Result<Vec<u8>, Bad> {
        let (word, rest) = cut(line);
        match word {
            "" | "#" => {}
            "new" => self.begin(alloc),
            "phase" => self.script.phases.push(Listing::new(alloc))?,
            "actor" => self.add_actor(alloc)?,
            "history" => {
                let (_number, words) = cut(rest);
                self.history.push(entry_of(alloc, words)?)?;
            }
            "at" => return self.ask(alloc, rest),
            _ => self.add_command(command_of(alloc, line)?, alloc)?,
        }
        Ok(Vec::new(alloc))
    }

    /// Begins another script and another history.
    fn begin(&mut self, alloc: Global) {
        self.script = empty_script(alloc);
        self.history.clear();
        self.command = 0;
    }

    /// The last phase gets one more actor.
    fn add_actor(&mut self, alloc: Global) -> Result<(), AllocError> {
        let mut phase = last_phase(alloc, &mut self.script.phases);
        phase.push(Listing::new(alloc))?;
        self.script.phases.push(phase)
    }

    /// The last actor gets one more command.
    fn add_command(&mut self, command: Command, alloc: Global) -> Result<(), AllocError> {
        let mut phase = last_phase(alloc, &mut self.script.phases);
        add_to_last(alloc, &mut phase, command)?;
        self.script.phases.push(phase)
    }

    /// The reply to a command at a place.
    fn ask(&mut self, alloc: Global, text: &str) -> Result<Vec<u8>, Bad> {
        let (place, words) = cut(text);
        let place = number(place)?;
        let command = asked(alloc, words)?;
        self.command = self.command.saturating_add(1);
        self.asked = self.asked.saturating_add(1);
        let reply = reply_at(alloc, &self.script, &self.history, place, &command)?;
        Ok(line_of(alloc, self.command, place, reply)?)
    }
}

/// A script without a phase.
fn empty_script(alloc: Global) -> Script {
    Script {
        layout: Layout { s: 16, r: 1 },
        servers: 9,
        term: 0,
        audit: false,
        phases: Listing::new(alloc),
        order: None,
    }
}

/// Takes the last phase off.
fn last_phase(alloc: Global, phases: &mut Listing<Phase>) -> Phase {
    match phases.pop() {
        Some(phase) => phase,
        None => Listing::new(alloc),
    }
}

/// The last actor of a phase gets one more command.
fn add_to_last(alloc: Global, phase: &mut Phase, command: Command) -> Result<(), AllocError> {
    let mut commands: Commands = match phase.pop() {
        Some(commands) => commands,
        None => Listing::new(alloc),
    };
    commands.push(command)?;
    phase.push(commands)
}
