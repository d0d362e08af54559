//! The step of a call that counts a pair at a tally.
ghost use Rattle.std.specs.Prelude.{◌≡◌, true};
ghost use Rattle.flurry_steps_stages.specs.Stage.{StageIsReady};
ghost use Rattle.flurry_steps.specs.PartyTally.{StageAtTally, is_counting};
ghost use Rattle.flurry_steps_stages.specs.StageView.{stage_of};

use super::ending::Ending;
use flurry_base::query::Query;
use flurry_bins_slots::ComputeFn;
use flurry_steps_control::Tally;
use flurry_steps_stages::Stage;
use std::alloc::Allocator;

// Does the step at a tally, and returns the stage after it.
pub(super) fn step_tally<Q: Query<K>, K: Ord + Drop, V: Drop, F: ComputeFn<K, V>, A: Allocator>(
    stage: Stage<Q, K, V, F, A>,
    tally: &mut Tally,
    most: i64,
) -> Stage<Q, K, V, F, A>
    requires is_counting { is_counting (stage_of Q.stands_for stage) ≡ true }
    requires callable { StageIsReady F.can_change F.never_keeps (stage_of Q.stands_for stage) }
    ensures ready { StageIsReady F.can_change F.never_keeps (stage_of Q.stands_for result) }
    ensures step { StageAtTally most (stage_of Q.stands_for stage) tally.old (stage_of Q.stands_for result)
        tally.new }
{
    let mut ending = Ending::of_stage(stage);
    ending.on_tally::<F>(tally, most);
    ending.into_stage()
}
