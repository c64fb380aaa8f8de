ghost use Rattle.std.specs.Prelude.{◌≡◌, IfOk};

use icet_base::{NoMemory, Rank};
use icet_sparse::Sparse;
use std::alloc::Global;
use std::marker::Model;

/// A piece on its way from one rank to another, in a round of the plan.
#[derive(Drop)]
pub struct Message {
    pub round: u32,
    pub from: Rank,
    pub to: Rank,
    pub piece: Sparse,
}

impl Model for Message {
    ghost use Rattle.std.specs.Prelude.{List};
    ghost use Rattle.icet_model.specs.Pixel.{Pixel};
    ghost use Rattle.icet_model.specs.Run.{MessageView};

    ghost Value = { MessageView (List Pixel) };

    ghost view = { λ m. record { round = m.round; from = m.from; to = m.to; piece = m.piece } };
}

impl Message {
    /// An equal message.
    pub fn copy(&self, alloc: Global) -> Result<Message, NoMemory>
        ensures { IfOk result (λ m. m ≡ self.now) }
    {
        let piece = self.piece.copy(alloc)?;
        Ok(Message {
            round: self.round,
            from: self.from,
            to: self.to,
            piece,
        })
    }
}
