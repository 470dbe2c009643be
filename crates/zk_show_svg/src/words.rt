ghost use Rattle.std.specs.Prelude.{◌≡◌, ◌==◌, position};
ghost use Rattle.zk_show_svg.specs.Steps.{behind_look, who, words, shown_service};

/// The word in front of a look's line.
pub const LOOK: &[u8] = b"look ";

/// A step's line in parts: whose step it is, and what was done and answered.
pub fn parted(text: &[u8]) -> (&[u8], &[u8])
    ensures who { result.0.now ≡ who text.now }
    ensures words { result.1.now ≡ words text.now }
{
    let line = behind_look(text);
    match space_of(line) {
        Some(at) => (&line[..at], &line[at + 1..]),
        None => (line, &[]),
    }
}

/// Where the first space of a line is.
fn space_of(line: &[u8]) -> Option<usize>
    ensures { result ≡ position (λ b. b == 32) line.now }
{
    line.iter().position(|byte| *byte == b' ')
}

/// A step's line without the word in front of a look's.
fn behind_look(text: &[u8]) -> &[u8]
    ensures { result.now ≡ behind_look text.now }
{
    match text.strip_prefix(LOOK) {
        Some(line) => line,
        None => text,
    }
}

/// The name of a service where it tells more than the operation, which names what the work service and the object table act on.
pub fn shown_service(service: &[u8]) -> &[u8]
    ensures { result.now ≡ shown_service service.now }
{
    if service == b"work".as_slice() || service == b"table".as_slice() {
        return &[];
    }
    service
}
