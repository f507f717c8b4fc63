//! Orders that a script gives.

ghost use Rattle.qfs_model_rows.specs.GivenOrders.{GivenOrders};

/// An order is bad at its first step that can't be followed, or at its end where an actor is unfinished.
pub fn given_orders()
    ensures { GivenOrders }
{}
