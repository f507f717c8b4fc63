//! Laws of orders that a script gives.

ghost use Rattle.std.specs.Prelude.{◌≡◌, ℕ, ◌&&◌, List, Some, is_none};
ghost use Rattle.std.specs.List.{list_all};
ghost use Rattle.qfs_base.specs.declared.history.Step.{Step};
ghost use Rattle.qfs_base.specs.declared.script.Script.{Script};
ghost use Rattle.qfs_model_world.specs.Fits.{fits, is_whole};
ghost use Rattle.qfs_model_world.specs.GivenOrder.{IsBadAt, bad_place, is_done};

/// An order is nowhere bad exactly where it fits its script, all its steps come out done, and it is
/// whole.
pub fn orders_are_followed_that_fit()
    ensures { (script : Script) (order : List Step)
        → is_none (bad_place script order) ≡ (fits script order && (list_all is_done order && is_whole script order)) }
{}

/// At the place where an order is bad, which is that of a step of it or its end, the steps before
/// can be followed, and there it can't go on.
pub fn bad_orders_cant_go_on()
    ensures { (script : Script) (order : List Step) (place : ℕ)
        → bad_place script order ≡ Some place → IsBadAt script order place }
{}

/// Where the steps before a place can be followed and there the order can't go on, that is the one
/// place where it is bad.
pub fn orders_are_bad_at_one_place()
    ensures { (script : Script) (order : List Step) (place : ℕ)
        → IsBadAt script order place → bad_place script order ≡ Some place }
{}
