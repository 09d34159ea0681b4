// Two runs side by side, over kinds of their own.
ghost use Rattle.std.specs.Prelude.{◌≡◌, IfOk};
ghost use Rattle.frame.specs.Refusals.{Kept, told};
ghost use Rattle.rules.specs.Switch.{new_answer};
ghost use Rattle.switch.specs.Switches.{meant};
ghost use Rattle.runs.specs.Statement.{Twins, started, view};

use crate::runs::run;
use crate::turns::{Ended, Turn};
use cells::rules::Rule;
use cells::stores::Store;
use forwarding::routes::Forwarding;
use frame::refusals::Refusal;
use gates::plans::Plan;
use switch::switches::Kinds;
use switch::switches::starts::Settings;

// Two runs with the same settings, each on a new switch of its own. Both are answered at their ends.
pub fn run_twins<
    S: Store + Drop,
    P: Plan + Drop,
    R: Rule + Drop,
    F: Forwarding + Drop,
    T: Store + Drop,
    Q: Plan + Drop,
    O: Rule + Drop,
    G: Forwarding + Drop,
>(
    settings: Settings,
    one: Kinds<P, R, F>,
    two: Kinds<Q, O, G>,
    turns: &mut [Turn<'_>],
    others: &mut [Turn<'_>],
) -> Result<(Ended<S, P, R, F>, Ended<T, Q, O, G>), Refusal>
    ensures answer { told (λ _. started settings) result ≡ new_answer settings.slot settings.number settings.bucket.rate settings.bucket.depth }
    ensures statement { IfOk result (λ e. Twins settings (view (meant P.fills P.opens R.floors F.forwards one) turns.old turns.new e.0) (view (meant Q.fills Q.opens O.floors G.forwards two) others.old others.new e.1)) }
    ensures kept { (Kept result turns.old turns.new) × (Kept result others.old others.new) }
{
    let one = run(settings, one, turns)?;
    let two = run(settings, two, others)?;
    Ok((one, two))
}
