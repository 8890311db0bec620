ghost use Rattle.std.specs.Prelude.{◌≡◌, [], ◌∷◌, ◌<◌, ◌≤◌, ◌==◌, length, position, MatchOption};
ghost use Rattle.script.specs.Lines.{lines, parts};

// The first line of some bytes, without byte 10, and the bytes behind it.
pub fn first_line(bytes: &[u8]) -> (&[u8], &[u8])
    requires { 0 < length bytes.now }
    ensures lines { lines bytes.now ≡ result.0.now ∷ lines result.1.now }
    ensures shorter { length result.1.now < length bytes.now }
{
    match place_of(bytes, b'\n') {
        Some(end) => {
            let (line, rest) = bytes.split_at(end);
            (line, &rest[1..])
        }
        None => bytes.split_at(bytes.len()),
    }
}

// The first part of some bytes, and what stands behind the first separator, where there is one.
pub fn first_part(bytes: &[u8], separator: u8) -> (&[u8], Option<&[u8]>)
    ensures parts { MatchOption result.1
        (parts separator bytes.now ≡ result.0.now ∷ [])
        (λ rest. parts separator bytes.now ≡ result.0.now ∷ parts separator rest.now) }
    ensures shorter { MatchOption result.1 (Unit {0}) (λ rest. length rest.now < length bytes.now) }
{
    match place_of(bytes, separator) {
        Some(end) => {
            let (part, rest) = bytes.split_at(end);
            (part, Some(&rest[1..]))
        }
        None => (bytes, None),
    }
}

// Where a byte first stands.
fn place_of(bytes: &[u8], sought: u8) -> Option<usize>
    ensures { result ≡ position (λ byte. byte == sought) bytes.now }
{
    bytes.iter().position(|byte| *byte == sought)
}
