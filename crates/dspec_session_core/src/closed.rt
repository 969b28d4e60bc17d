ghost use Rattle.std.specs.Prelude.{◌≤◌, length};

use crate::left::Left;
use std::marker::Model;

/// What is left of a session that has ended, CPU by CPU.
#[derive(Drop)]
pub struct Closed {
    pub(crate) left: Vec<Left>,
    ghost few: { length left.items ≤ 64 },
}

impl Model for Closed {
    ghost use Rattle.std.specs.Prelude.{List};
    ghost use Rattle.dspec_session_core.specs.declared.left.Left.{Left};

    ghost Value = { List Left };

    ghost view = { λ i. i.left.items };
}
