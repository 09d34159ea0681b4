// Runs: any list of calls on a new switch.
ghost use Rattle.std.specs.Prelude.{◌≡◌, map, IfOk, OnOk};
ghost use Rattle.frame.specs.Refusals.{Kept, told};
ghost use Rattle.rules.specs.Switch.{new_answer};
ghost use Rattle.rules.specs.Twins.{AllAddressed};
ghost use Rattle.switch.specs.Answers.{gauged, standing_rows};
ghost use Rattle.switch.specs.Switches.{kinds as kinds_of, meant, state};
ghost use Rattle.runs.specs.Gauges.{all_gauged};
ghost use Rattle.runs.specs.Statement.{Statement, started, view};
ghost use Rattle.runs.specs.Turns.{asked};

use crate::turns::{Ended, Turn};
use cells::rules::Rule;
use cells::stores::Store;
use forwarding::routes::Forwarding;
use frame::numbers::Port;
use frame::refusals::Refusal;
use gates::plans::Plan;
use switch::answers::Gauged;
use switch::switches::starts::Settings;
use switch::switches::{Kinds, Switch};

// What Gauge answers for each port.
fn gauge_all<S: Store, P, R, F>(switch: &Switch<S, P, R, F>) -> [Gauged; 4]
    ensures { map gauged result ≡ all_gauged (state switch.now) }
{
    Port::ALL.map(|port| switch.gauge(port.number()).unwrap())
}

// Makes the calls of the turns, one after the other, on a new switch, and writes each answer into its turn.
// Wrong settings are refused as New refuses them, and then no turn is touched. A run allocates nothing.
pub fn run<S: Store, P: Plan + Drop, R: Rule + Drop, F: Forwarding + Drop>(
    settings: Settings,
    kinds: Kinds<P, R, F>,
    turns: &mut [Turn<'_>],
) -> Result<Ended<S, P, R, F>, Refusal>
    ensures answer { told (λ _. started settings) result ≡ new_answer settings.slot settings.number settings.bucket.rate settings.bucket.depth }
    ensures statement { IfOk result (λ e. Statement settings (view (meant P.fills P.opens R.floors F.forwards kinds) turns.old turns.new e)) }
    ensures standing { IfOk result (λ e. e.standing ≡ standing_rows (state e.switch)) }
    ensures gauges { IfOk result (λ e. map gauged e.gauges ≡ all_gauged (state e.switch)) }
    ensures kinds { IfOk result (λ e. kinds_of e.switch ≡ kinds) }
    ensures addressed { OnOk result (AllAddressed (map asked turns.old)) }
    ensures kept { Kept result turns.old turns.new }
{
    let mut switch = Switch::new(settings, kinds)?;
    for turn in turns.iter_mut() {
        turn.answer = Some(switch.make(turn.call, turn.buffer.as_mut_slice()));
    }
    Ok(Ended {
        standing: switch.standing(),
        gauges: gauge_all(&switch),
        switch,
    })
}
