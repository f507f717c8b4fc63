//! What was read of a script so far, and how one more line goes on.
ghost use Rattle.std.specs.Prelude.{◌≡◌};
ghost use Rattle.qfs_words.specs.Meant.{command_meant, first_meant};
ghost use Rattle.qfs_script.specs.Goes.{Goes};
ghost use Rattle.qfs_script.specs.Meant.{place_meant};
ghost use Rattle.qfs_model_grammar.specs.SoFar.{nothing_yet, take_qfs, take_layout, take_servers, take_term, take_audit, take_phase, take_actor, take_command, take_order, take_line};

use crate::counts::{Counts, counted, put_len};
use crate::order::read_order;
use crate::phases::{push_actor, push_command};
use crate::place::LinePlace;
use qfs_base::layout::Layout;
use qfs_base::listing::Listing;
use qfs_base::script::{Script, ScriptCause};
use qfs_base::sizes::{MOST_ROWS, MOST_SERVERS};
use qfs_forms::command_of;
use qfs_lexer::{
    MOST_ACTORS, MOST_TICKS, Refusal, Words, no_word, number_in, one_word, stripe_in, two_words,
};
use qfs_words::{CommandWord, FirstWord};
use std::alloc::Global;
use std::marker::Model;

/// The most phases.
const MOST_PHASES: usize = 16;

/// The script that the lines so far say, behind which of them the next one stands, and what the
/// limits are on. Contracts see the state of the grammar.
#[derive(Drop)]
pub struct SoFar {
    place: LinePlace,
    script: Script,
    /// The actors of all phases.
    actors: u32,
    counts: Counts,
}

impl Model for SoFar {
    ghost use Rattle.std.specs.Prelude.{◌≤◌};
    ghost use Rattle.qfs_script.specs.Counted.{AreKept};
    ghost use Rattle.qfs_script.specs.Meant.{place_meant};
    ghost use Rattle.qfs_model_grammar.specs.SoFar.{SoFar};

    ghost Value = { SoFar };

    ghost view = { λ it. record {
      place = place_meant it.place;
      script = it.script;
      actors = it.actors;
      commands = it.counts.commands;
      blocks = it.counts.blocks;
      chunk_bytes = it.counts.chunk_bytes;
    } };

    ghost invariant = { λ it. (it.actors ≤ 64) × AreKept it.counts };
}

impl SoFar {
    /// Before the first line; what the first lines say stands here as if they said the least.
    pub fn nothing_yet(alloc: Global) -> SoFar
        ensures { result ≡ nothing_yet }
    {
        SoFar {
            place: LinePlace::Start,
            script: Script {
                layout: Layout { s: 16, r: 1 },
                servers: 1,
                term: 0,
                audit: false,
                phases: Listing::new(alloc),
                order: None,
            },
            actors: 0,
            counts: Counts {
                commands: 0,
                blocks: 0,
                chunk_bytes: 0,
            },
        }
    }

    /// Behind which line the next one stands.
    pub fn place(&self) -> LinePlace
        ensures { place_meant result ≡ self.now.place }
    {
        self.place
    }

    /// The script.
    pub fn into_script(self) -> Script
        ensures { result ≡ self.script }
    {
        self.script
    }

    /// `qfs 1`.
    #[tactic(auto, unfolding(qfs_model_grammar::specs::SoFar::take_qfs, qfs_model_grammar::specs::SoFar::with_head))]
    fn take_qfs(&mut self, words: &mut Words<'_>) -> Result<(), Refusal>
        ensures { Goes (take_qfs self.old words.old) self.new result }
    {
        let word = one_word(words)?;
        number_in(1, 1, word)?;
        self.place = LinePlace::Qfs;
        Ok(())
    }

    /// `layout S R`: stripes of S bytes, and chunks of at most R rows, 1 to 1,024.
    #[tactic(auto, unfolding(qfs_model_grammar::specs::SoFar::take_layout, qfs_model_grammar::specs::SoFar::with_head))]
    fn take_layout(&mut self, words: &mut Words<'_>) -> Result<(), Refusal>
        ensures { Goes (take_layout self.old words.old) self.new result }
    {
        let (stripe, rows) = two_words(words)?;
        let s = stripe_in(stripe)?;
        let r = number_in(1, MOST_ROWS, rows)?;
        self.script.layout = Layout { s, r };
        self.place = LinePlace::Layout;
        Ok(())
    }

    /// `servers N`: 1 to 64 servers.
    #[tactic(auto, unfolding(qfs_model_grammar::specs::SoFar::take_servers, qfs_model_grammar::specs::SoFar::with_head))]
    fn take_servers(&mut self, words: &mut Words<'_>) -> Result<(), Refusal>
        ensures { Goes (take_servers self.old words.old) self.new result }
    {
        let word = one_word(words)?;
        let servers = number_in(1, u32::from(MOST_SERVERS), word)?;
        self.script.servers = servers as u16;
        self.place = LinePlace::Servers;
        Ok(())
    }

    /// `term T`: 1 to 1,000 ticks.
    #[tactic(auto, unfolding(qfs_model_grammar::specs::SoFar::take_term, qfs_model_grammar::specs::SoFar::with_head))]
    fn take_term(&mut self, words: &mut Words<'_>) -> Result<(), Refusal>
        ensures { Goes (take_term self.old words.old) self.new result }
    {
        let word = one_word(words)?;
        self.script.term = number_in(1, MOST_TICKS, word)?;
        self.place = LinePlace::Term;
        Ok(())
    }

    /// `audit`.
    #[tactic(auto, unfolding(qfs_model_grammar::specs::SoFar::take_audit, qfs_model_grammar::specs::SoFar::with_head))]
    fn take_audit(&mut self, words: &mut Words<'_>) -> Result<(), Refusal>
        ensures { Goes (take_audit self.old words.old) self.new result }
    {
        no_word(words)?;
        self.script.audit = true;
        self.place = LinePlace::Audit;
        Ok(())
    }

    /// `phase`: the next of at most 16 phases.
    #[tactic(auto, unfolding(qfs_model_grammar::specs::SoFar::take_phase, qfs_model_grammar::specs::SoFar::with_head, qfs_model_grammar::specs::Said::if_kept))]
    fn take_phase(&mut self, alloc: Global, words: &mut Words<'_>) -> Result<(), Refusal>
        ensures { Goes (take_phase self.old words.old) self.new result }
    {
        no_word(words)?;
        if self.script.phases.len() >= MOST_PHASES {
            return Err(Refusal::Bad(ScriptCause::Limit));
        }
        self.script.phases.push(Listing::new(alloc))?;
        self.place = LinePlace::Phase;
        Ok(())
    }

    /// `actor A`: the next of at most 64 actors, who has no commands yet.
    #[tactic(auto, unfolding(qfs_model_grammar::specs::SoFar::take_actor, qfs_model_grammar::specs::SoFar::with_next_actor, qfs_model_grammar::specs::Said::if_kept))]
    fn take_actor(&mut self, alloc: Global, words: &mut Words<'_>) -> Result<(), Refusal>
        ensures { Goes (take_actor self.old words.old) self.new result }
    {
        let word = one_word(words)?;
        number_in(self.actors + 1, self.actors + 1, word)?;
        if self.actors >= MOST_ACTORS {
            return Err(Refusal::Bad(ScriptCause::Limit));
        }
        push_actor(alloc, &mut self.script.phases)?;
        self.place = LinePlace::Actor;
        self.actors += 1;
        self.counts.commands = 0;
        Ok(())
    }

    /// A command of the last actor.
    #[tactic(auto, unfolding(qfs_model_grammar::specs::SoFar::take_command, qfs_model_grammar::specs::SoFar::with_next_command, qfs_model_grammar::specs::SoFar::keeps_limits, qfs_model_grammar::specs::Said::if_kept))]
    fn take_command(
        &mut self,
        alloc: Global,
        word: CommandWord,
        words: &mut Words<'_>,
    ) -> Result<(), Refusal>
        ensures { Goes (take_command self.old (command_meant word) words.old) self.new result }
    {
        let command = command_of(alloc, self.script.servers, word, words)?;
        let len = put_len(&command);
        let Some(counts) = counted(&self.script.layout, self.counts, len) else {
            return Err(Refusal::Bad(ScriptCause::Limit));
        };
        push_command(&mut self.script.phases, command)?;
        self.place = LinePlace::Actor;
        self.counts = counts;
        Ok(())
    }

    /// `order` and any number of runs.
    #[tactic(auto, unfolding(qfs_model_grammar::specs::SoFar::take_order, qfs_model_grammar::specs::SoFar::with_head))]
    fn take_order(&mut self, alloc: Global, words: &mut Words<'_>) -> Result<(), Refusal>
        ensures { Goes (take_order self.old words.old) self.new result }
    {
        let order = read_order(alloc, words)?;
        self.script.order = Some(order);
        self.place = LinePlace::Order;
        Ok(())
    }

    /// A line of this first word, and of the words behind it.
    #[tactic(auto, unfolding(qfs_model_grammar::specs::SoFar::take_line, qfs_words::specs::Meant::first_meant))]
    pub fn take_line(
        &mut self,
        alloc: Global,
        first: FirstWord,
        words: &mut Words<'_>,
    ) -> Result<(), Refusal>
        ensures { Goes (take_line self.old (first_meant first) words.old) self.new result }
    {
        match first {
            FirstWord::Qfs => self.take_qfs(words),
            FirstWord::Layout => self.take_layout(words),
            FirstWord::Servers => self.take_servers(words),
            FirstWord::Term => self.take_term(words),
            FirstWord::Audit => self.take_audit(words),
            FirstWord::Phase => self.take_phase(alloc, words),
            FirstWord::Actor => self.take_actor(alloc, words),
            FirstWord::Order => self.take_order(alloc, words),
            FirstWord::Command(word) => self.take_command(alloc, word, words),
        }
    }
}
