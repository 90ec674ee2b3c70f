//! A script that several tests run, and its transcript.

/// A client's put and its get. 77 bytes in eight lines.
pub const PUT_THEN_GET: &[u8] =
    b"clay 1\ncode 2 2 1\nclient\nput a hex:0100000000000000\nget a\nschedule\ndrain\nend\n";

/// Its transcript, of which there is only one: 113 bytes.
pub const TRANSCRIPT: &[u8] = b"\
H 0 c0.0 ok
H 1 c0.1 bytes hex:0100000000000000
L a 8
G c0.1 4 4 0 0
T 0 4 1 0
T 1 4 1 0
T 2 0 1 0
T 3 0 1 0
end
";
