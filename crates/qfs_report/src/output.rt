//! The whole output of a run.

ghost use Rattle.std.specs.Prelude.{◌≡◌, ◌++◌, length, IfOk, OnOk, OnErr};
ghost use Rattle.std.specs.Bool.{then_some};
ghost use Rattle.qfs_model_text.specs.Output.{asked_audit};
ghost use Rattle.qfs_report.specs.AuditOfImage.{audit_of_image, output_of_parts};

use crate::audit::push_audit;
use crate::history::push_history;
use crate::order::push_order;
use qfs_base::command::ReplyList;
use qfs_base::image::MetaImage;
use qfs_base::lists::LifeList;
use qfs_base::numbers::Life;
use qfs_base::order::Order;
use qfs_lines::push_replies;
use std::alloc::{AllocError, Global};

/// Appends the audit, if the script asks for one.
#[tactic(auto, unfolding(qfs_model_text::specs::Output::asked_audit))]
fn push_asked(
    alloc: Global,
    out: &mut Vec<u8>,
    image: &MetaImage,
    lives: &[Life],
    audit: bool,
    order: &Order,
) -> Result<(), AllocError>
    ensures { OnOk result (out.new.items ≡ out.old.items ++ asked_audit
        (then_some audit (audit_of_image image.now lives.now (length order.now)))) }
{
    if audit {
        push_audit(alloc, out, image, lives, order)
    } else {
        Ok(())
    }
}

/// The whole output of a run.
#[tactic(auto, unfolding(crate::specs::AuditOfImage::output_of_parts, qfs_model_text::specs::Output::output))]
fn text_of(
    alloc: Global,
    replies: &ReplyList,
    image: &MetaImage,
    lives: &LifeList,
    audit: bool,
    order: &Order,
) -> Result<Vec<u8>, AllocError>
    ensures { IfOk result (λ text. text.items
        ≡ output_of_parts replies.now image.now lives.now audit order.now) }
{
    let mut text = Vec::new(alloc);
    push_replies(alloc, &mut text, replies.as_slice())?;
    push_history(&mut text, image.history.as_slice())?;
    push_asked(alloc, &mut text, image, lives.as_slice(), audit, order)?;
    push_order(&mut text, order)?;
    Ok(text)
}

/// Appends the whole output of a run to `out`: the replies by actor and command, the history of
/// the files, the audit where the script asks for one, and the order of steps. `image` is the
/// metaserver's state at the end of the run, and `lives` are the servers' lives then, from server 1
/// on. On want of memory `out` stays as it was.
pub fn text(
    alloc: Global,
    replies: &ReplyList,
    image: &MetaImage,
    lives: &LifeList,
    audit: bool,
    order: &Order,
    out: &mut Vec<u8>,
) -> Result<(), AllocError>
    ensures ok { OnOk result (out.new.items ≡ out.old.items
        ++ output_of_parts replies.now image.now lives.now audit order.now) }
    ensures err { OnErr result (out.new.items ≡ out.old.items) }
{
    let mut text = text_of(alloc, replies, image, lives, audit, order)?;
    if out.is_empty() {
        *out = text;
        return Ok(());
    }
    out.append(&mut text)
}
