// Lawful file names.
ghost use Rattle.std.specs.Prelude.{◌≡◌, ◌≤◌, ◌==◌, length, position, take};
ghost use Rattle.layout.specs.Names.{lawful, plain_byte, plain_bytes, up_to_zero, all_zero, lawful_field};

// The longest name, and the bytes of a directory entry's name field.
pub const MAX_NAME: usize = 14;

// Whether a name may have that byte: it is neither 0 nor a slash.
fn is_plain(byte: u8) -> bool
    ensures { result ≡ plain_byte byte }
{
    byte != 0 && byte != b'/'
}

// Whether every byte is neither 0 nor a slash.
fn has_plain_bytes(name: &[u8]) -> bool
    ensures { result ≡ plain_bytes name.now }
{
    name.iter().all(|byte| is_plain(*byte))
}

// Question 18: 1 to 14 bytes, none of them 0 or a slash, and neither "." nor "..".
pub fn is_lawful(name: &[u8]) -> bool
    ensures { result ≡ lawful name.now }
{
    match name {
        [] | [b'.'] | [b'.', b'.'] => false,
        _ => name.len() <= MAX_NAME && has_plain_bytes(name),
    }
}

fn first_zero(field: &[u8]) -> Option<usize>
    ensures { result ≡ position (λ x. x == 0) field.now }
{
    field.iter().position(|byte| *byte == 0)
}

// How many bytes stand before the first 0.
pub fn name_len(field: &[u8]) -> usize
    ensures answer { result ≡ length (up_to_zero field.now) }
    ensures front { take result field.now ≡ up_to_zero field.now }
    ensures within { result ≤ length field.now }
{
    first_zero(field).unwrap_or(field.len())
}

fn is_all_zero(bytes: &[u8]) -> bool
    ensures { result ≡ all_zero bytes.now }
{
    bytes.iter().all(|byte| *byte == 0)
}

// Whether a name field holds a lawful name, then zeros.
pub fn is_lawful_field(field: &[u8; 14]) -> bool
    ensures { result ≡ lawful_field field.now }
{
    let (name, rest) = field.split_at(name_len(field));
    is_lawful(name) && is_all_zero(rest)
}
