ghost use Rattle.std.specs.Prelude.{◌≡◌, ℕ, List};
ghost use Rattle.module_text.specs.Designs.{PlainDesign};
ghost use Rattle.module_text.specs.Texts.{IsDesignText, Version};

/// No two designs have one text.
pub fn texts_are_apart()
    ensures { (v : Version) (bytes : List ℕ) (d e : PlainDesign)
        → IsDesignText v bytes d → IsDesignText v bytes e → d ≡ e }
{}
