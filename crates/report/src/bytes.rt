// Numbers stored as bytes.
ghost use Rattle.std.specs.Prelude.{◌≡◌, ◌+◌, ◌≤◌, length};
ghost use Rattle.std.proofs.lemmas.List.Edits.{sets};

// The bytes of a number stored at a place that has room for them.
pub fn put(part: &mut [u8], at: usize, bytes: &[u8])
    requires { at + length bytes.now ≤ length part.old }
    ensures { part.new ≡ sets part.old at bytes.now }
{
    part[at..at + bytes.len()].copy_from_slice(bytes);
}
