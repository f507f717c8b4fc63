//! What worked runs are by the definitions of held blocks, drawn orders, deletions, the file history
//! and of what actors hold.

ghost use Rattle.qfs_model_rows.specs.Meanings.{HeldBlocks, DrawnOrders, Deletions, AgreeingReplies, InTheMidst};

/// A block is held where six copies are readable when a get opens its file and no fetch of them fails,
/// and not where only five do.
pub fn held_blocks()
    ensures { HeldBlocks }
{}

/// The order of three actors that is drawn from 1, worked out with another program.
pub fn drawn_orders()
    ensures { DrawnOrders }
{}

/// A copy that was moved away is the only one that is deleted.
pub fn deletions()
    ensures { Deletions }
{}

/// Every reply agrees with the one file history, also where a path is put anew during a get.
pub fn agreeing_replies()
    ensures { AgreeingReplies }
{}

/// In the midst of a get and a move both hold what they got, and all copies are right.
pub fn in_the_midst()
    ensures { InTheMidst }
{}
