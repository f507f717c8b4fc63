//! What the limits of a script are on.
ghost use Rattle.std.specs.Prelude.{◌≡◌, ◌≤◌, ◌+◌, ◌^◌, IfSome};
ghost use Rattle.qfs_base.specs.declared.command.Command.TheVariants as Does;
ghost use Rattle.qfs_base.specs.Sizes.{MOST_FILE_BYTES};
ghost use Rattle.qfs_model_grammar.specs.SoFar.{recipe_len, put_len, chunk_rows, chunk_bytes_of};
ghost use Rattle.qfs_script.specs.Counted.{counted, AreKept};

use qfs_base::command::{Command, FileCommand};
use qfs_base::layout::Layout;
use qfs_base::recipe::{Form, Recipe};
use qfs_stripe::LayoutCalls;

/// The most commands of an actor.
const MOST_COMMANDS: u32 = 4_096;

/// The most blocks of one put, and of all puts together.
const MOST_BLOCKS_OF_PUT: u32 = 65_536;

const MOST_BLOCKS: u32 = 262_144;

/// The most bytes of the chunks of all puts together.
const MOST_BYTES_OF_CHUNKS: u64 = 3_221_225_472;

/// The commands of the last actor, and the blocks and the bytes of the chunks of all puts.
#[derive(Clone, Copy)]
pub struct Counts {
    pub commands: u32,
    pub blocks: u32,
    pub chunk_bytes: u64,
}

/// How many bytes a recipe has.
#[tactic(auto, unfolding(qfs_model_grammar::specs::SoFar::recipe_len))]
fn recipe_len(recipe: &Recipe) -> u32
    ensures value { result ≡ recipe_len recipe.now }
    ensures within { result ≤ MOST_FILE_BYTES }
{
    match &recipe.form {
        Form::Hex(bytes) => bytes.len() as u32,
        Form::Fill { len, .. } => *len,
        Form::Pattern { len, .. } => *len,
    }
}

/// How many bytes a file command puts.
#[tactic(auto, unfolding(qfs_model_grammar::specs::SoFar::put_len))]
fn file_len(command: &FileCommand) -> u32
    ensures value { result ≡ put_len (Does.File command.now) }
    ensures within { result ≤ MOST_FILE_BYTES }
{
    match command {
        FileCommand::Mkdir(_) => 0,
        FileCommand::Rmdir(_) => 0,
        FileCommand::Remove(_) => 0,
        FileCommand::Rename(_, _) => 0,
        FileCommand::List(_) => 0,
        FileCommand::Put(_, recipe) => recipe_len(recipe),
        FileCommand::Get(_, _) => 0,
    }
}

/// How many bytes a command puts: none, if it is no put.
#[tactic(auto, unfolding(qfs_model_grammar::specs::SoFar::put_len))]
pub fn put_len(command: &Command) -> u32
    ensures value { result ≡ put_len command.now }
    ensures within { result ≤ MOST_FILE_BYTES }
{
    match command {
        Command::File(command) => file_len(command),
        Command::Recover(_, _, _) => 0,
        Command::Move(_, _, _, _) => 0,
        Command::Heal(_) => 0,
        Command::Rebalance(_) => 0,
        Command::Evacuate(_, _) => 0,
        Command::Sweep(_) => 0,
        Command::Stop(_) => 0,
        Command::Start(_) => 0,
        Command::Wipe(_) => 0,
        Command::Hibernate(_, _) => 0,
        Command::Upgrade(_) => 0,
        Command::Tick => 0,
        Command::Drop(_) => 0,
        Command::Checkpoint => 0,
        Command::Restart => 0,
    }
}

/// The rows of a file of `len` bytes, at most 268,435,456, in each slot: those of the whole blocks,
/// and those of the rest.
fn chunk_rows(layout: &Layout, len: u32) -> u64
    requires { len ≤ MOST_FILE_BYTES }
    ensures value { result ≡ chunk_rows layout.now len }
    ensures few { result ≤ 2 ^ 30 }
{
    let block = layout.block_bytes();
    let whole = u64::from(len / block) * u64::from(layout.r);
    let rest = (len % block).div_ceil(layout.row_bytes());
    whole + u64::from(rest)
}

/// The bytes of all chunks of a file of `len` bytes, at most 268,435,456.
fn chunk_bytes_of(layout: &Layout, len: u32) -> u64
    requires { len ≤ MOST_FILE_BYTES }
    ensures value { result ≡ chunk_bytes_of layout.now len }
    ensures few { result ≤ 2 ^ 50 }
{
    let rows = chunk_rows(layout, len);
    9 * (rows * u64::from(layout.s))
}

/// The counts with a command more that puts `len` bytes, at most 268,435,456. None says that a limit
/// is passed.
pub fn counted(layout: &Layout, counts: Counts, len: u32) -> Option<Counts>
    requires len { len ≤ MOST_FILE_BYTES }
    requires kept { AreKept counts }
    ensures value { result ≡ counted layout.now counts len }
    ensures kept { IfSome result AreKept }
{
    let blocks = layout.blocks_of(len);
    let now = Counts {
        commands: counts.commands + 1,
        blocks: counts.blocks + blocks,
        chunk_bytes: counts.chunk_bytes + chunk_bytes_of(layout, len),
    };
    if now.commands <= MOST_COMMANDS
        && blocks <= MOST_BLOCKS_OF_PUT
        && now.blocks <= MOST_BLOCKS
        && now.chunk_bytes <= MOST_BYTES_OF_CHUNKS
    {
        Some(now)
    } else {
        None
    }
}
