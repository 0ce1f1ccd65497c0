//! The alarms that a rehearsal may be built with.
use crate::show::show_log;
use alarm::base::Alarm;
use alarm::counter::Counter;
use alarm::divider::Divider;
use alarm::ramp::Ramp;
use alarm::topup::TopUp;
use anyhow::anyhow;
use board::replay::replay;
use planner::plan::Plan;
use refusal::explain::Sentence;
use rules::calls::Call;

/// Told where the alarm has none of these names.
const NO_ALARM: &str =
    "no such alarm: counter, divider, ramp:W:counter, ramp:W:divider, top-up:counter or top-up:divider";

/// The calls that are made on a board over the plan, whatever its alarm.
#[derive(Drop)]
pub(crate) struct Rehearsal<'a> {
    pub(crate) rt: &'a HostRuntime,
    pub(crate) plan: Plan,
    pub(crate) calls: Vec<Call>,
}

impl<'a> Rehearsal<'a> {
    /// Makes the calls over the alarm that is named so.
    pub(crate) fn run(&self, kind: &str) -> anyhow::Result<()> {
        // Each name makes an alarm of another type: a table of makers would have to hand out dyn alarms.
        match kind {
            "counter" => self.over(Counter::new()),
            "divider" => self.over(Divider::new()),
            "top-up:counter" => self.over(TopUp::new(Counter::new())),
            "top-up:divider" => self.over(TopUp::new(Divider::new())),
            _ => match kind
                .strip_prefix("ramp:")
                .and_then(|ramp| ramp.split_once(':'))
            {
                Some((warm, "counter")) => self.over_ramp(Counter::new(), warm),
                Some((warm, "divider")) => self.over_ramp(Divider::new(), warm),
                _ => Err(anyhow!(NO_ALARM)),
            },
        }
    }

    /// Makes the calls on a board over the alarm, and prints them.
    fn over<T: Alarm + Drop>(&self, alarm: T) -> anyhow::Result<()> {
        let answers = replay(self.rt.alloc(), self.plan, alarm, &self.calls)?;
        show_log(self.rt, &self.calls, &answers)
    }

    /// The same over a ramp with this warm-up.
    fn over_ramp<T: Alarm + Drop>(&self, below: T, warm: &str) -> anyhow::Result<()> {
        let warm = warm.parse::<u32>()?;
        match Ramp::new(below, warm) {
            Ok(ramp) => self.over(ramp),
            Err((_, refusal)) => {
                self.rt.eprintln(Sentence(refusal))?;
                Err(anyhow!("the ramp is refused"))
            }
        }
    }
}
