//! What holds of every run of two buses and a bridge, whatever runs it.
ghost use Rattle.std.specs.Prelude.{◌≡◌, ◌≤◌, length};
ghost use Rattle.script_runs.specs.Histories.{Histories};
ghost use Rattle.bridge_plan.specs.Plan.{PlanText, bridge_of};
ghost use Rattle.bridge_plan.specs.Sends.{sends_of};
ghost use Rattle.bridge_runs.specs.Bridge.{given_by};
ghost use Rattle.bridge_runs.specs.Bridged.{IsBridged};
ghost use Rattle.bridge_runs.specs.Lefts.{messages_by, given_alone, sends_in, bytes_of, SideHoldsNothing};

/// What the bridge sends on side 2 is what its pipe gave on side 1, each message once and in order;
/// and the pipe gave what it gives alone: whatever the other pipes of side 1 do, only which sends
/// were accepted there, and the pipe's own subscriptions and depth, decide what goes over. So no
/// more messages go over than sends were made on side 1, nor than lines of its script send, and no
/// more bytes than these lines are charged for.
pub fn bridges_forward()
    ensures order { (plan : PlanText) (one two : Histories) (bridged : IsBridged plan one two) →
        messages_by (bridge_of plan.two) two.bus ≡ given_by plan.one bridged.pipe one.bus }
    ensures alone { (plan : PlanText) (one two : Histories) (bridged : IsBridged plan one two) →
        messages_by (bridge_of plan.two) two.bus ≡ given_alone plan.one bridged.pipe one.bus }
    ensures few { (plan : PlanText) (one two : Histories) → IsBridged plan one two →
        length (messages_by (bridge_of plan.two) two.bus) ≤ sends_in one.bus }
    ensures lines { (plan : PlanText) (one two : Histories) → IsBridged plan one two →
        length (messages_by (bridge_of plan.two) two.bus) ≤ (sends_of plan.one.apps).lines }
    ensures bytes { (plan : PlanText) (one two : Histories) → IsBridged plan one two →
        bytes_of (messages_by (bridge_of plan.two) two.bus) ≤ (sends_of plan.one.apps).bytes }
{}

/// Behind such a run no pipe is live on either side, no message and no buffer is held, every block
/// of both pools is back, and no table and no handle is left.
pub fn bridges_leave_nothing()
    ensures one { (plan : PlanText) (one two : Histories) → IsBridged plan one two →
        SideHoldsNothing plan.one one }
    ensures two { (plan : PlanText) (one two : Histories) → IsBridged plan one two →
        SideHoldsNothing plan.two two }
{}
