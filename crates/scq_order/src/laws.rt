ghost use Rattle.std.specs.Prelude.{ℕ, List};
ghost use Rattle.scq_hist.specs.declared.events.Event.{Event};
ghost use Rattle.scq_hist.specs.Exports.{IsLawful};
ghost use Rattle.scq_order.specs.Exports.{HasOrders, IsComplete, IsRight};

/// A lawful history in which each queue has a sequential order is right, also if calls are still
/// under way at its end. A complete history that is right, and so lawful, has a sequential order of
/// each queue. So a lawful, complete history is linearizable exactly if it is right.
pub fn aspects_are_orders()
    ensures right { (opening : List (List ℕ)) (events : List Event)
        → IsLawful events → HasOrders opening events → IsRight opening events }
    ensures orders { (opening : List (List ℕ)) (events : List Event)
        → IsComplete events → IsRight opening events → HasOrders opening events }
{}
