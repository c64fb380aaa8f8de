ghost use Rattle.std.specs.Prelude.{◌≡◌, IfOk};
ghost use Rattle.icet_model.specs.BracketFold.{left};

use crate::Bracket;
use icet_base::NoMemory;
use sqlite_items::Boxed;
use std::alloc::Global;

/// The bracket that joins `front` before `back`.
///
/// # Errors
///
/// `NoMemory`.
pub fn pair(alloc: Global, front: Bracket, back: Bracket) -> Result<Bracket, NoMemory>
    ensures { IfOk result (λ b. b ≡ Bracket.Pair front back) }
{
    Ok(Bracket::Pair(Boxed::new(alloc, front)?, Boxed::new(alloc, back)?))
}

/// The fold of these brackets from the left: each further one is the back of a new pair. Over none
/// it is the empty bracket.
///
/// # Errors
///
/// `NoMemory`.
pub fn fold_left(alloc: Global, parts: Vec<Bracket>) -> Result<Bracket, NoMemory>
    ensures { IfOk result (λ b. b ≡ left parts.items) }
{
    let mut parts = parts.into_iter();
    let Some(first) = parts.next() else {
        return Ok(Bracket::Empty);
    };
    let mut whole = first;
    for part in parts {
        whole = pair(alloc, whole, part)?;
    }
    Ok(whole)
}
