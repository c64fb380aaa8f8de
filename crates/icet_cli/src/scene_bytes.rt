ghost use Rattle.std.specs.Prelude.{◌≡◌, IfOk, IfErr, vec_len};
ghost use Rattle.icet_model.specs.declared.limits.TheConstants.{MAX_READ};
ghost use Rattle.icet_cli.specs.SceneBytes.{FailsToRead, ReadsAll};

use crate::run_fault::RunFault;
use icet_base::Source;
use icet_base::limits::{MAX_READ, MAX_SCENE_BYTES};
use std::alloc::{AllocError, Global};

/// The bytes of the source to its end, or until more than a scene may have were read.
pub fn read_all<S: Source>(alloc: Global, source: &mut S) -> Result<Vec<u8>, RunFault>
    ensures all { IfOk result (λ all. ReadsAll (S.told source.old) (S.told source.new) all.items) }
    ensures fault { IfErr result (λ fault. FailsToRead fault (S.told source.old) (S.told source.new)) }
{
    let mut buffer = read_buffer(alloc)?;
    let mut all = Vec::new(alloc);
    while all.len() <= MAX_SCENE_BYTES {
        let n = source.read(buffer.as_mut_slice())?;
        if n == 0 {
            return Ok(all);
        }
        all.extend_from_slice(&buffer[..n])?;
    }
    Ok(all)
}

/// Room for one read.
fn read_buffer(alloc: Global) -> Result<Vec<u8>, AllocError>
    ensures { IfOk result (λ buffer. vec_len buffer ≡ MAX_READ) }
{
    vec![in alloc; 0u8; MAX_READ]
}
