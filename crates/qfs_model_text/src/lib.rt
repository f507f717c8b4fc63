//! What a run prints, as definitions: the replies, the history of the files and the order of
//! steps, in the words that the output has for them.
#![tactic(auto)]

ghost use Rattle.std.specs.Prelude.{◌≡◌, codes};
ghost use Rattle.qfs_model_text.specs.Examples.{first_replies, first_lines};
ghost use Rattle.qfs_model_text.specs.Order.{LinesTellOrders};
ghost use Rattle.qfs_model_text.specs.Reply.{reply_lines};

/// The replies of a put and a get of five bytes are printed so.
pub fn prints_first_replies()
    ensures { reply_lines first_replies ≡ first_lines }
{}

/// The order line of a run tells the whole order of its steps.
pub fn order_lines_tell_orders()
    ensures { LinesTellOrders }
{}
