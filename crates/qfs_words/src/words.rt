//! The words by which lines begin.
ghost use Rattle.std.specs.Prelude.{◌≡◌};
ghost use Rattle.std.specs.Option.{option_map};
ghost use Rattle.qfs_model_grammar.specs.FirstWords.{first_word};
ghost use Rattle.qfs_words.specs.Meant.{first_meant, of_command};
ghost use Rattle.qfs_words.specs.Spelled.{word_among, head_spellings, path_spellings, other_spellings, command_spellings};

/// The words by which commands begin.
#[derive(Clone, Copy, PartialEq, Eq)]
pub enum CommandWord {
    Mkdir,
    Rmdir,
    Remove,
    Rename,
    List,
    Put,
    Get,
    Recover,
    Move,
    Heal,
    Rebalance,
    Evacuate,
    Sweep,
    Stop,
    Start,
    Wipe,
    Hibernate,
    Upgrade,
    Tick,
    Drop,
    Checkpoint,
    Restart,
}

/// The words by which lines begin.
#[derive(Clone, Copy, PartialEq, Eq)]
pub enum FirstWord {
    Qfs,
    Layout,
    Servers,
    Term,
    Audit,
    Phase,
    Actor,
    Order,
    Command(CommandWord),
}

/// The first word of a line of the head, of a phase, of an actor or of an order that is written so.
fn head_word(word: &[u8]) -> Option<FirstWord>
    ensures { option_map first_meant result ≡ word_among head_spellings word.now }
{
    if word == b"qfs".as_slice() {
        Some(FirstWord::Qfs)
    } else if word == b"layout".as_slice() {
        Some(FirstWord::Layout)
    } else if word == b"servers".as_slice() {
        Some(FirstWord::Servers)
    } else if word == b"term".as_slice() {
        Some(FirstWord::Term)
    } else if word == b"audit".as_slice() {
        Some(FirstWord::Audit)
    } else if word == b"phase".as_slice() {
        Some(FirstWord::Phase)
    } else if word == b"actor".as_slice() {
        Some(FirstWord::Actor)
    } else if word == b"order".as_slice() {
        Some(FirstWord::Order)
    } else {
        None
    }
}

/// The first word of a command on a path that is written so.
fn path_command_word(word: &[u8]) -> Option<CommandWord>
    ensures { option_map of_command result ≡ word_among path_spellings word.now }
{
    if word == b"mkdir".as_slice() {
        Some(CommandWord::Mkdir)
    } else if word == b"rmdir".as_slice() {
        Some(CommandWord::Rmdir)
    } else if word == b"remove".as_slice() {
        Some(CommandWord::Remove)
    } else if word == b"rename".as_slice() {
        Some(CommandWord::Rename)
    } else if word == b"list".as_slice() {
        Some(CommandWord::List)
    } else if word == b"put".as_slice() {
        Some(CommandWord::Put)
    } else if word == b"get".as_slice() {
        Some(CommandWord::Get)
    } else if word == b"recover".as_slice() {
        Some(CommandWord::Recover)
    } else if word == b"move".as_slice() {
        Some(CommandWord::Move)
    } else {
        None
    }
}

/// The first word of another command that is written so.
fn other_command_word(word: &[u8]) -> Option<CommandWord>
    ensures { option_map of_command result ≡ word_among other_spellings word.now }
{
    if word == b"heal".as_slice() {
        Some(CommandWord::Heal)
    } else if word == b"rebalance".as_slice() {
        Some(CommandWord::Rebalance)
    } else if word == b"evacuate".as_slice() {
        Some(CommandWord::Evacuate)
    } else if word == b"sweep".as_slice() {
        Some(CommandWord::Sweep)
    } else if word == b"stop".as_slice() {
        Some(CommandWord::Stop)
    } else if word == b"start".as_slice() {
        Some(CommandWord::Start)
    } else if word == b"wipe".as_slice() {
        Some(CommandWord::Wipe)
    } else if word == b"hibernate".as_slice() {
        Some(CommandWord::Hibernate)
    } else if word == b"upgrade".as_slice() {
        Some(CommandWord::Upgrade)
    } else if word == b"tick".as_slice() {
        Some(CommandWord::Tick)
    } else if word == b"drop".as_slice() {
        Some(CommandWord::Drop)
    } else if word == b"checkpoint".as_slice() {
        Some(CommandWord::Checkpoint)
    } else if word == b"restart".as_slice() {
        Some(CommandWord::Restart)
    } else {
        None
    }
}

/// The first word of a command that is written so.
#[tactic(auto, using(crate::proofs::Spelled::among_first, crate::proofs::Spelled::among_others))]
fn command_word(word: &[u8]) -> Option<CommandWord>
    ensures { option_map of_command result ≡ word_among command_spellings word.now }
{
    match path_command_word(word) {
        Some(command) => Some(command),
        None => other_command_word(word),
    }
}

/// The first word that is written so.
#[tactic(auto, using(crate::proofs::Spelled::first_of_heads, crate::proofs::Spelled::first_of_commands, crate::proofs::Spelled::first_of_none))]
pub fn first_word(word: &[u8]) -> Option<FirstWord>
    ensures { option_map first_meant result ≡ first_word word.now }
{
    match head_word(word) {
        Some(first) => Some(first),
        None => match command_word(word) {
            Some(command) => Some(FirstWord::Command(command)),
            None => None,
        },
    }
}
