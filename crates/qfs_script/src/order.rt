//! The line of an order.
ghost use Rattle.std.specs.Prelude.{◌≡◌};
ghost use Rattle.qfs_lexer.specs.Tells.{Tells};
ghost use Rattle.qfs_script.specs.Goes.{order_said};

use qfs_base::order::Order;
use qfs_lexer::{Refusal, Words, run_in};
use std::alloc::Global;

/// Behind `order`: any number of runs.
pub fn read_order(alloc: Global, words: &mut Words<'_>) -> Result<Order, Refusal>
    ensures { Tells (order_said words.old) result }
{
    let mut order = Order::new(alloc);
    while let Some(word) = words.next_word() {
        match run_in(word) {
            Ok(part) => order.push_run(part.step, part.count)?,
            Err(cause) => return Err(Refusal::Bad(cause)),
        }
    }
    Ok(order)
}
