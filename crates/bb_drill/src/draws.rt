ghost use Rattle.std.specs.Prelude.{◌≡◌, ◌<◌, IfOk};
ghost use Rattle.bb_drill.specs.Draws.{command_from, cut_from, decay_from, draw, draws_of};
ghost use Rattle.bb_drill.specs.Draws.{fill_by, session_from, state_after};

use crate::{DrawnSession, DrillCommand, PlannedCut};
use bb_base::NoMemory;
use bb_flash::Fill;
use std::alloc::Global;
use std::marker::Model;

// The state from which the next number is drawn.
#[derive(Debug, Drop)]
struct Draws {
    state: u64,
}

impl Model for Draws {
    ghost use Rattle.std.specs.Prelude.{ℕ};

    ghost Value = { ℕ };

    ghost view = { λ draws. draws.state };
}

impl Draws {
    fn of(number: u32) -> Draws
        ensures { result ≡ number }
    {
        Draws {
            state: u64::from(number),
        }
    }

    #[tactic(auto, unfolding(crate::specs::Draws::state_after))]
    fn step(&mut self)
        ensures { self.new ≡ state_after self.old }
    {
        let product = self.state.wrapping_mul(6_364_136_223_846_793_005);
        self.state = product.wrapping_add(1_442_695_040_888_963_407);
    }

    // A number below n.
    fn below(&mut self, n: u32) -> u32
        requires { 0 < n }
        ensures value { result ≡ draw n self.old }
        ensures bound { result < n }
        ensures state { self.new ≡ state_after self.old }
    {
        self.step();
        (self.state / 8_589_934_592 % u64::from(n)) as u32
    }

    #[tactic(auto, unfolding(crate::specs::Draws::command_from))]
    fn command(&mut self) -> DrillCommand
        ensures value { result ≡ (command_from self.old).0 }
        ensures state { self.new ≡ (command_from self.old).1 }
    {
        match self.below(4) {
            0 => DrillCommand::Priority(self.below(100)),
            1 => DrillCommand::Boot,
            2 => DrillCommand::MarkGood,
            _ => DrillCommand::Show,
        }
    }

    #[tactic(auto, unfolding(crate::specs::Draws::cut_from))]
    fn cut(&mut self) -> Option<PlannedCut>
        ensures value { result ≡ (cut_from self.old).0 }
        ensures state { self.new ≡ (cut_from self.old).1 }
    {
        if self.below(3) != 0 {
            return None;
        }
        let call = self.below(40);
        let fill = fill_of(self.below(4));
        Some(PlannedCut { call, fill })
    }

    #[tactic(auto, unfolding(crate::specs::Draws::decay_from))]
    fn decay(&mut self) -> Option<u32>
        ensures value { result ≡ (decay_from self.old).0 }
        ensures state { self.new ≡ (decay_from self.old).1 }
    {
        if self.below(8) != 0 {
            return None;
        }
        Some(self.below(3))
    }

    #[tactic(auto, unfolding(crate::specs::Draws::session_from))]
    fn session(&mut self) -> DrawnSession
        ensures value { result ≡ (session_from self.old).0 }
        ensures state { self.new ≡ (session_from self.old).1 }
    {
        let command = self.command();
        let cut = self.cut();
        let decay = self.decay();
        DrawnSession {
            command,
            cut,
            decay,
        }
    }
}

fn fill_of(number: u32) -> Fill
    ensures { result ≡ fill_by number }
{
    match number {
        0 => Fill::Old,
        1 => Fill::Half,
        2 => Fill::Junk,
        _ => Fill::Lost,
    }
}

/// So many sessions, drawn from a number: the same for the same number, and a shorter drill has the
/// first of a longer one.
pub fn draw_sessions(alloc: Global, number: u32, count: u16) -> Result<Vec<DrawnSession>, NoMemory>
    ensures { IfOk result (λ drawn. drawn.items ≡ draws_of number count) }
{
    let mut draws = Draws::of(number);
    let mut drawn = Vec::new(alloc);
    for _ in 0..count {
        drawn.push(draws.session())?;
    }
    Ok(drawn)
}
