ghost use Rattle.std.specs.Prelude.{◌≡◌};
ghost use Rattle.soda_print.specs.Canonical.{border_word, role_word};

use soda_ir::{Border, Role};

/// The word of a role.
#[tactic(auto, unfolding(crate::specs::Canonical::role_word))]
pub(crate) fn role_word(role: Role) -> &'static [u8]
    ensures { result.now ≡ role_word role }
{
    match role {
        Role::Input => b"input",
        Role::Local => b"local",
        Role::Output => b"output",
    }
}

/// The word of a border.
#[tactic(auto, unfolding(crate::specs::Canonical::border_word))]
pub(crate) fn border_word(border: Border) -> &'static [u8]
    ensures { result.now ≡ border_word border }
{
    match border {
        Border::Ignore => b"ignore",
        Border::Preserve => b"preserve",
    }
}
