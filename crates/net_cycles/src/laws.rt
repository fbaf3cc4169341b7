ghost use Rattle.std.specs.Prelude.{◌≡◌, ◌↔◌, ℕ, Bool, true, List};
ghost use Rattle.net_ir.specs.Nets.{Net};
ghost use Rattle.net_ir.specs.States.{taken, sent};
ghost use Rattle.net_ir.specs.CycleRun.{fires};
ghost use Rattle.net_cycles.specs.Between.{between, sends, takes, CanFire};

/// When no module is in the midst of a firing, as many items were sent into a queue as its sender has done firings, and
/// as many taken as its receiver has done, less the lead.
pub fn sends_and_takes()
    ensures sends { (net : Net) (fired : List ℕ) (queue : ℕ)
        → sent net (between fired) queue ≡ sends net fired queue }
    ensures takes { (net : Net) (fired : List ℕ) (queue : ℕ)
        → taken net (between fired) queue ≡ takes net fired queue }
{}

/// A module fires exactly where it isn't stalled, has a firing left, and each queue at it lets it.
pub fn fires_exactly()
    ensures { (net : Net) (firings : ℕ) (stalled : List Bool) (fired : List ℕ) (m : ℕ)
        → (fires net firings stalled (between fired) m ≡ true) ↔ CanFire net firings stalled fired m }
{}
