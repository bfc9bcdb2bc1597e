//! Lines and columns. A byte place is a number of bytes from the beginning of a source.
ghost use Rattle.std.specs.Prelude.{◌≡◌, ◌+◌, ◌<◌, ◌≤◌, List, ℕ, drop, length};
ghost use Rattle.rl_pylex.specs.Bytes.{text_start};
ghost use Rattle.rl_report.specs.Places.{IsAt, after, place_of, role_at};

/// A place in a source. Lines and columns count from 1, and columns count code points.
#[derive(Clone, Copy, PartialEq, Eq)]
pub struct Place {
    /// The number of the line.
    pub line: u32,
    /// The number of the code point in its line.
    pub column: u32,
}

/// The role of a byte in counting lines and columns.
#[derive(Clone, Copy)]
pub enum Role {
    /// It ends a line.
    EndsLine,
    /// It begins a code point.
    BeginsCode,
    /// It continues a code point.
    GoesOn,
}

/// Returns the text from a byte place to the end.
fn rest_from(text: &[u8], at: usize) -> &[u8]
    requires { at ≤ length text.now }
    ensures { result.now ≡ drop at text.now }
{
    &text[at..]
}

/// Returns the byte place where the text of a source begins, which is after its byte order mark if it has one.
#[tactic(auto, unfolding(rl_pylex::specs::Bytes::text_start))]
fn text_start(source: &[u8]) -> u32
    ensures value { result ≡ text_start source.now }
    ensures within { result ≤ length source.now }
{
    if source.starts_with(b"\xEF\xBB\xBF") {
        3
    } else {
        0
    }
}

/// Returns the role of the first byte of a text.
fn role_at(text: &[u8]) -> Role
    ensures { result ≡ role_at text.now }
{
    match text {
        [b'\r', b'\n', ..] => Role::BeginsCode,
        [b'\n' | b'\r', ..] => Role::EndsLine,
        [0x80..=0xBF, ..] => Role::GoesOn,
        _ => Role::BeginsCode,
    }
}

impl Place {
    /// Returns the place after a byte with this role, if the byte is at this place.
    fn after(self, role: Role) -> Place
        requires line { self.line < 4294967295 }
        requires column { self.column < 4294967295 }
        ensures { result ≡ after role self }
    {
        match role {
            Role::EndsLine => Place {
                line: self.line + 1,
                column: 1,
            },
            Role::BeginsCode => Place {
                line: self.line,
                column: self.column + 1,
            },
            Role::GoesOn => self,
        }
    }
}

/// A byte place in a source, with its line and column. It only moves forward, so one pass over the source finds any number of
/// places in increasing order.
#[derive(Clone, Copy)]
pub struct Cursor {
    /// The byte place, counted from 0.
    byte: u32,
    /// The line and column of the byte place.
    place: Place,
}

impl Cursor {
    /// Returns a cursor at byte place 0, line 1 and column 1, which is right for every source.
    #[tactic(auto, using(crate::proofs::PlaceLemmas::steps))]
    pub fn start() -> Cursor
        ensures front { result.byte ≡ 0 }
        ensures at { (source : List ℕ) → IsAt source result }
    {
        Cursor {
            byte: 0,
            place: Place { line: 1, column: 1 },
        }
    }

    /// Returns the byte place of the cursor, counted from 0.
    pub fn byte(self) -> u32
        ensures { result ≡ self.byte }
    {
        self.byte
    }

    /// Returns the line and column of the cursor.
    pub fn place(self) -> Place
        ensures { result ≡ self.place }
    {
        self.place
    }

    /// Returns a cursor at the byte place `byte` of `source`. The cursor must be right for this source, and `byte` must not be
    /// before the cursor nor after the end of the source, and must be less than 2^32 - 1.
    #[tactic(auto, using(crate::proofs::PlaceLemmas::steps))]
    pub fn forward(self, source: &[u8], byte: u32) -> Cursor
        requires at { IsAt source.now self }
        requires forward { self.byte ≤ byte }
        requires within { byte ≤ length source.now }
        requires small { byte < 4294967295 }
        ensures value { result.byte ≡ byte }
        ensures at { IsAt source.now result }
        ensures place { result.place ≡ place_of source.now byte }
    {
        let mut place = self.place;
        for at in self.byte.max(text_start(source)).min(byte)..byte {
            place = place.after(role_at(rest_from(source, at as usize)));
        }
        Cursor { byte, place }
    }
}

/// Returns the line and column of a byte place, which must not be after the end of the source and must be less than 2^32 - 1.
/// A byte order mark at the beginning doesn't count as a column, and a place in it is line 1, column 1. A line ends with CR
/// LF, with a CR that has no LF after it, or with LF. A place between CR and LF is on the line that they end, one column after
/// the CR.
pub fn place_of(source: &[u8], byte: u32) -> Place
    requires within { byte ≤ length source.now }
    requires small { byte < 4294967295 }
    ensures { result ≡ place_of source.now byte }
{
    Cursor::start().forward(source, byte).place()
}
