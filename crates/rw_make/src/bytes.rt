//! Numbers and names, added to the end of bytes.

ghost use Rattle.std.specs.Prelude.{◌≡◌, ◌≤◌, ◌<◌, ◌+◌, ◌++◌, ◌^◌, OnOk, IfOk, length};
ghost use Rattle.rw_make.specs.Bytes.{half, word, xword, padded, zero_ended, next_place as place_after};

use std::alloc::AllocError;

/// Adds the low 2 bytes of a number.
#[tactic(auto, unfolding(crate::specs::Bytes::half))]
pub(crate) fn put_half(out: &mut Vec<u8>, number: u64) -> Result<(), AllocError>
    ensures { OnOk result (out.new.items ≡ out.old.items ++ half number) }
{
    let bytes = number.to_le_bytes();
    out.extend_from_slice(&bytes[..2])?;
    Ok(())
}

/// Adds the low 4 bytes of a number.
#[tactic(auto, unfolding(crate::specs::Bytes::word))]
pub(crate) fn put_word(out: &mut Vec<u8>, number: u64) -> Result<(), AllocError>
    ensures { OnOk result (out.new.items ≡ out.old.items ++ word number) }
{
    let bytes = number.to_le_bytes();
    out.extend_from_slice(&bytes[..4])?;
    Ok(())
}

/// Adds the 8 bytes of a number.
#[tactic(auto, unfolding(crate::specs::Bytes::xword))]
pub(crate) fn put_xword(out: &mut Vec<u8>, number: u64) -> Result<(), AllocError>
    ensures { OnOk result (out.new.items ≡ out.old.items ++ xword number) }
{
    out.extend_from_slice(&number.to_le_bytes())?;
    Ok(())
}

/// Adds a name and the zero byte that ends it.
pub(crate) fn put_name(out: &mut Vec<u8>, name: &[u8]) -> Result<(), AllocError>
    ensures { OnOk result (out.new.items ≡ out.old.items ++ zero_ended name.now) }
{
    out.extend_from_slice(name)?;
    out.push(0)?;
    Ok(())
}

/// Adds bytes, and zeros up to a multiple of 8.
#[tactic(auto, unfolding(crate::specs::Bytes::padded))]
pub(crate) fn put_padded(out: &mut Vec<u8>, bytes: &[u8]) -> Result<(), AllocError>
    ensures { OnOk result (out.new.items ≡ out.old.items ++ padded bytes.now) }
{
    out.extend_from_slice(bytes)?;
    for _zero in 0..(8 - bytes.len() % 8) % 8 {
        out.push(0)?;
    }
    Ok(())
}

/// The least multiple of 8 that isn't below this number; bytes up to a greater address find no memory.
pub(crate) fn next_place(address: u64) -> Result<u64, AllocError>
    ensures { IfOk result (λ place. place ≡ place_after address) }
{
    let last = address.checked_add(7).ok_or(AllocError)?;
    Ok(last / 8 * 8)
}
