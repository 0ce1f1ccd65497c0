//! Drives an alarm of any kind through a whole wait.
ghost use Rattle.std.specs.Prelude.{◌≡◌, true, None};
ghost use Rattle.alarm.specs.Effects.{SetTo};

use alarm::base::Alarm;

// The pass is the wait, and so a number with 0 for none, as `set` answers it.
/// Sets the alarm to `n`, lets ticks go by until it rings, and answers at which pass that was, 0 if the wait is 0: a wait that this alarm chooses.
pub(crate) fn rings_at<L: Alarm>(alarm: &mut L, n: u32) -> u32
    ensures chosen { (y : L) × SetTo L.Alarm alarm.old n result y }
    ensures over { L.Alarm.meaning alarm.new ≡ None }
{
    let wait = alarm.set(n);
    for passed in 1..=wait {
        if alarm.pass() {
            return passed;
        }
    }
    wait
}

/// Whether set, left and pass tell the same story of a whole wait: they do, for every alarm.
pub(crate) fn agrees<L: Alarm>(alarm: &mut L, n: u32) -> bool
    ensures { result ≡ true }
{
    let wait = alarm.set(n);
    for rest in (1..=wait).rev() {
        if alarm.left() != Some(rest) || alarm.pass() != (rest == 1) {
            return false;
        }
    }
    alarm.left().is_none()
}
