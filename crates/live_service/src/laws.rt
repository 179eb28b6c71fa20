//! A law of plans. The function does nothing: its contract is the law, whose proof is checked with it.

ghost use Rattle.std.specs.Prelude.{All};
ghost use Rattle.script_lang.specs.declared.live.LivePlan.{LivePlan};
ghost use Rattle.script_lang.specs.Live.{AreClients, IsPlan};
ghost use Rattle.live_service.specs.Lawful.{IsByOneOf};

/// A plan that some bytes spell has 1 to 16 clients, and each of its calls is of one of them. So what `read_live` answers
/// can be run, where it has fewer than 2^32 calls.
pub fn plans_can_be_run()
    ensures clients { (plan : LivePlan) → IsPlan plan → AreClients plan.clients }
    ensures each { (plan : LivePlan) → IsPlan plan → All (IsByOneOf plan.clients) plan.calls }
{}
