//! The text of a run.
ghost use Rattle.std.specs.Prelude.{◌≡◌, IfOk};
ghost use Rattle.qfs_model_text.specs.Output.{plain_output};

use qfs_base::command::ReplyLine;
use qfs_base::history::Entry;
use qfs_base::order::Order;
use qfs_report::{push_history, push_order, push_replies};
use std::alloc::{AllocError, Global};

/// The lines of the replies, of the file history and of the order.
#[tactic(auto, unfolding(qfs_model_text::specs::Output::output, qfs_model_text::specs::Output::asked_audit))]
pub fn text_of(
    alloc: Global,
    replies: &[ReplyLine],
    history: &[Entry],
    order: &Order,
) -> Result<Vec<u8>, AllocError>
    ensures { IfOk result (λ text. text.items ≡ plain_output replies.now history.now order.now) }
{
    let mut text = Vec::new(alloc);
    push_replies(alloc, &mut text, replies)?;
    push_history(&mut text, history)?;
    push_order(&mut text, order)?;
    Ok(text)
}
