//! What a scene's text says, what its shapes draw, and the bytes of its pictures: the definitions that
//! every contract about scenes cites stand in `specs/`. They stand on the pixels and plans of `icet_model`,
//! which know nothing of scenes, and on the lines, words and numbers of `icet_text`.
#![tactic(auto)]

pub mod examples;
pub mod fault;
pub mod keyword;
pub mod limits;
pub mod spot;
pub mod texts;
