//! Which session's latch refuses another's: latches are read off the stages.

ghost use Rattle.std.specs.Prelude.{◌≡◌, ◌<◌, IfSome};
ghost use Rattle.rm_core.specs.Below.{Op};
ghost use Rattle.rm_play.specs.Choosing.{bars_it, first_barring, is_reading, latches_it, looks_at};
ghost use Rattle.rm_ops.specs.Views.{HasSession};
ghost use Rattle.rm_ops.specs.Stages.{stage_with};

use crate::desk::Desk;
use rm_ops::Stage;

// Whether a session at this stage only reads the page that it wants.
fn is_reading(stage: Stage) -> bool
    ensures { (op : Op) → result ≡ is_reading (stage_with op stage) }
{
    match stage {
        Stage::Reads(_) => true,
        _ => false,
    }
}

// Whether it has the page latched alone.
fn latches(stage: Stage, page: u32) -> bool
    ensures { (op : Op) → result ≡ latches_it (stage_with op stage) page }
{
    match stage {
        Stage::Tries(on) | Stage::Prepares(_, on) | Stage::Compensates(_, on) => on == page,
        Stage::Sets(rid) | Stage::Settles(_, rid) => rid.page == page,
        _ => false,
    }
}

// Whether it has the page latched shared.
fn looks(stage: Stage, page: u32) -> bool
    ensures { (op : Op) → result ≡ looks_at (stage_with op stage) page }
{
    match stage {
        Stage::Fetches(rid) => rid.page == page,
        _ => false,
    }
}

impl Desk {
    // Whether the latch of session `j` refuses that of session `k`.
    fn bars(&self, k: u8, page: u32, j: u8) -> bool
        requires { HasSession self.now.view k × HasSession self.now.view j }
        ensures { result ≡ bars_it self.now.view.state k page j }
    {
        let stage = self.stage(j);
        j != k && (latches(stage, page) || !is_reading(self.stage(k)) && looks(stage, page))
    }

    /// The first session whose latch on the page refuses the session's.
    pub fn barring(&self, k: u8, page: u32) -> Option<u8>
        requires { HasSession self.now.view k }
        ensures value { result ≡ first_barring self.now.view.state k page }
        ensures bound { IfSome result (λ by. by < 255) }
    {
        for j in 0..self.sessions() {
            if self.bars(k, page, j) {
                return Some(j);
            }
        }
        None
    }
}
