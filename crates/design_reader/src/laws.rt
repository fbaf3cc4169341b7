ghost use Rattle.std.specs.Prelude.{◌≡◌, ◌≤◌, ℕ, List, length};
ghost use Rattle.net_build.specs.Planned.{net_under};
ghost use Rattle.design_reader.specs.Limits.{most_design_text, most_queues};
ghost use Rattle.design_reader.specs.Refused.{IsRefusedLine};
ghost use Rattle.module_text.specs.Designs.{IsDesign, PlainDesign};
ghost use Rattle.module_text.specs.Texts.{IsDesignText, Version};

/// No text of a design has a refused line, unless it is longer than the limit.
pub fn texts_of_designs_are_not_refused()
    ensures { (v : Version) (bytes : List ℕ) (d : PlainDesign) (line : ℕ) → length bytes ≤ most_design_text
        → IsDesignText v bytes d → IsRefusedLine v bytes line → ⊥ }
{}

/// A text has one refused line at most.
pub fn refused_lines_are_one()
    ensures { (v : Version) (bytes : List ℕ) (m n : ℕ) → IsRefusedLine v bytes m → IsRefusedLine v bytes n → m ≡ n }
{}

/// The network of a design has few queues: two for each module at the most, and for each lane one for each staged
/// tensor and one for each read.
pub fn queues_of_designs_are_few()
    ensures { (d : PlainDesign) → IsDesign d → length (net_under d.program d.delays).queues ≤ most_queues }
{}
