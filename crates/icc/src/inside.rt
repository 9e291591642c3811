// Bytes of a tag read and written. Shared helpers with preconditions on the tag's length; not public.
ghost use Rattle.std.specs.Prelude.{◌≡◌, ◌+◌, ◌*◌, ◌/◌, ◌%◌, ◌≤◌, length};
ghost use Rattle.std.proofs.lemmas.List.Edits.{sets};
ghost use Rattle.icc.specs.Bytes.{be16, be32, bytes16, bytes32};
ghost use Rattle.icc.specs.Opening.{opening};

// The 16-bit number at byte i. A function for each width: a trait over u16 and u32 would be longer than both.
pub fn u16_at(tag: &[u8], i: usize) -> u16
    requires { i + 2 ≤ length tag.now }
    ensures { result ≡ be16 tag.now i }
{
    u16::from_be_bytes([tag[i], tag[i + 1]])
}

// The 32-bit number at byte i.
pub fn u32_at(tag: &[u8], i: usize) -> u32
    requires { i + 4 ≤ length tag.now }
    ensures { result ≡ be32 tag.now i }
{
    u32::from_be_bytes([tag[i], tag[i + 1], tag[i + 2], tag[i + 3]])
}

// Writes a 16-bit number from byte i on.
pub fn put_u16(out: &mut [u8], i: usize, x: u16)
    requires { i + 2 ≤ length out.old }
    ensures { out.new ≡ sets out.old i (bytes16 x) }
{
    out[i..i + 2].copy_from_slice(&x.to_be_bytes());
}

// Writes a 32-bit number from byte i on.
pub fn put_u32(out: &mut [u8], i: usize, x: u32)
    requires { i + 4 ≤ length out.old }
    ensures { out.new ≡ sets out.old i (bytes32 x) }
{
    out[i..i + 4].copy_from_slice(&x.to_be_bytes());
}

// Writes the signature and the reserved bytes.
pub fn put_opening(out: &mut [u8], signature: u32)
    requires { 8 ≤ length out.old }
    ensures { out.new ≡ sets out.old 0 (opening signature) }
{
    put_u32(out, 0, signature);
    put_u32(out, 4, 0);
}
