// What is drawn for the sessions of a drill, computed here apart from the drill's own draws.
ghost use Rattle.std.specs.Prelude.{◌<◌};

/// What is drawn for one session, as far as these tests have to know it.
#[derive(Clone, Copy, Debug)]
pub struct Draw {
    /// 0 sets a priority, 1 boots, 2 marks a target good, 3 shows the table.
    pub command: u32,
    /// The flash call of the cut, if one is drawn.
    pub cut: Option<u32>,
    /// A copy decays.
    pub decay: bool,
}

fn next(state: &mut u64, n: u32) -> u32
    requires { 0 < n }
{
    *state = state
        .wrapping_mul(6364136223846793005)
        .wrapping_add(1442695040888963407);
    ((*state >> 33) % u64::from(n)) as u32
}

/// What is drawn for the next session.
pub fn next_draw(state: &mut u64) -> Draw {
    let command = next(state, 4);
    if command == 0 {
        let _priority = next(state, 100);
    }
    let cut = next_cut(state);
    let decay = next_decay(state);
    Draw {
        command,
        cut,
        decay,
    }
}

fn next_cut(state: &mut u64) -> Option<u32> {
    if next(state, 3) != 0 {
        return None;
    }
    let call = next(state, 40);
    let _filling = next(state, 4);
    Some(call)
}

fn next_decay(state: &mut u64) -> bool {
    if next(state, 8) != 0 {
        return false;
    }
    let _copy = next(state, 3);
    true
}

/// How many cuts, decays and boots are drawn.
#[derive(Clone, Copy, Debug)]
pub struct DrawCounts {
    pub cuts: u32,
    pub decays: u32,
    pub boots: u32,
}

/// Those of so many sessions.
pub fn count_draws(number: u32, count: u16) -> DrawCounts {
    let mut state = u64::from(number);
    let mut counts = DrawCounts {
        cuts: 0,
        decays: 0,
        boots: 0,
    };
    for _ in 0..count {
        counts = with_draw(counts, next_draw(&mut state));
    }
    counts
}

fn with_draw(counts: DrawCounts, draw: Draw) -> DrawCounts {
    DrawCounts {
        cuts: counts.cuts.saturating_add(u32::from(draw.cut.is_some())),
        decays: counts.decays.saturating_add(u32::from(draw.decay)),
        boots: counts.boots.saturating_add(u32::from(draw.command == 1)),
    }
}
