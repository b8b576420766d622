ghost use Rattle.std.specs.Prelude.{◌≡◌};

use crate::Deed;
use std::marker::Model;

/// A list of deeds, one for each frame that a pump cuts. After the last deed the pump uses the first again. Without deeds it sends each
/// frame once (this project's own).
#[derive(Drop)]
pub struct LinkPlan {
    deeds: Vec<Deed>,
}

impl Model for LinkPlan {
    ghost use Rattle.std.specs.Prelude.{List};
    ghost use Rattle.site_pumps.specs.declared.deed.Deed.{Deed};

    ghost Value = { List Deed };

    ghost view = { λ plan. plan.deeds.items };
}

impl LinkPlan {
    /// The plan of these deeds, in their order. It takes no memory.
    pub fn new(deeds: Vec<Deed>) -> LinkPlan
        ensures { result ≡ deeds.items }
    {
        LinkPlan { deeds }
    }

    /// Its deeds, in their order. It takes no memory.
    pub fn deeds(&self) -> &[Deed]
        ensures { result.now ≡ self.now }
    {
        self.deeds.as_slice()
    }
}
