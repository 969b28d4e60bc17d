ghost use Rattle.std.specs.Prelude.{◌≡◌, length, IfOk, IfErr, OnOk, OnErr};
ghost use Rattle.dspec_ctf.specs.InMemory.Calls.{Fills, HasNoRoom};

/// Puts bytes to the front of a room, and says how many; or how many it would need.
pub(crate) fn fill(room: &mut [u8], bytes: &[u8]) -> Result<usize, usize>
    ensures filled { OnOk result (Fills room.old bytes.now room.new) }
    ensures size { IfOk result (λ size. size ≡ length bytes.now) }
    ensures needed { IfErr result (HasNoRoom room.old bytes.now) }
    ensures refused { OnErr result (room.new ≡ room.old) }
{
    let size = bytes.len();
    if room.len() < size {
        return Err(size);
    }
    room[..size].copy_from_slice(bytes);
    Ok(size)
}
