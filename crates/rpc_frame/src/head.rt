ghost use Rattle.std.specs.Prelude.{◌≡◌, ℕ, ◌-◌, ◌<◌, ◌≤◌, IsTrue, Option, None};
ghost use Rattle.rpc_frame.specs.Frames.{blank_byte, name_byte, value_byte};
ghost use Rattle.rpc_frame.specs.Heads.{behind_next, closing_next, digits_next, end_next, field_next, figure_next, goes_on, length_next, lines_next, name_next, other_next, spot_next, value_next};
ghost use Rattle.rpc_frame.specs.Spots.{IsFit, IsFitNext};

use crate::CONTENT_LIMIT;
use crate::damage::DamageKind;

/// The name of the line that says how long the content is, in lower case.
const LENGTH_NAME: &[u8; 14] = b"content-length";

/// The most digits that its number may have.
const DIGIT_LIMIT: usize = 8;

/// Where in a header part the next byte stands.
#[derive(Clone, Copy, Debug)]
pub enum Spot {
    /// In a name, or at the start of a line. So many bytes of it have come, and they begin the name
    /// of the length.
    Field(usize),
    /// In another name.
    Name,
    /// In the value of another name.
    Value,
    /// In the value of the length, behind blanks and so many digits that write this number.
    Digits { count: usize, number: usize },
    /// In the blanks behind the digits that write this number.
    Behind(usize),
    /// Behind the CR of a line.
    LineEnd,
    /// Behind the CR of the closing line. The content has this size.
    Closing(usize),
}

/// What has come of a header part.
#[derive(Clone, Copy, Debug)]
pub struct Head {
    /// The size of the content, where it was said.
    pub size: Option<usize>,
    pub spot: Spot,
}

/// What the next byte makes of a header part.
#[derive(Clone, Copy, Debug)]
pub enum Next {
    On(Head),
    /// It is whole, and the content has this size.
    Closed(usize),
    Bad(DamageKind),
}

impl Head {
    /// The start of a header part.
    pub const START: Head = Head {
        size: None,
        spot: Spot::Field(0),
    };

    pub fn next(self, byte: u8) -> Next
        requires { IsFit self.spot }
        ensures next { result ≡ spot_next self.spot self.size byte }
        ensures fit { IsFitNext result }
    {
        match self.spot {
            Spot::Field(at) => after_field(at, self.size, byte),
            Spot::Name => after_name(self.size, byte),
            Spot::Value => after_value(self.size, byte),
            Spot::Digits { count, number } => after_digits(count, number, self.size, byte),
            Spot::Behind(number) => after_behind(number, self.size, byte),
            Spot::LineEnd => after_end(self.size, byte),
            Spot::Closing(size) => after_closing(size, byte),
        }
    }
}

fn on(size: Option<usize>, spot: Spot) -> Next
    requires { IsFit spot }
    ensures next { result ≡ Next.On (record { size = size; spot = spot }) }
    ensures fit { IsFitNext result }
{
    Next::On(Head { size, spot })
}

#[tactic(auto, unfolding(crate::specs::Heads::field_next))]
fn after_field(at: usize, size: Option<usize>, byte: u8) -> Next
    requires { at ≤ 14 }
    ensures next { result ≡ field_next at size byte }
    ensures fit { IsFitNext result }
{
    if at == 0 && byte == b'\r' {
        return after_lines(size);
    }
    if at > 0 && byte == b':' {
        if at == LENGTH_NAME.len() {
            return after_length(size);
        }
        return on(size, Spot::Value);
    }
    if !is_name_byte(byte) {
        return Next::Bad(DamageKind::BadLine);
    }
    if goes_on(at, byte) {
        return on(size, Spot::Field(at + 1));
    }
    on(size, Spot::Name)
}

/// The CR of the closing line.
fn after_lines(size: Option<usize>) -> Next
    ensures next { result ≡ lines_next size }
    ensures fit { IsFitNext result }
{
    match size {
        None => Next::Bad(DamageKind::NoLength),
        Some(said) => on(size, Spot::Closing(said)),
    }
}

/// The colon behind the name of the length.
fn after_length(size: Option<usize>) -> Next
    ensures next { result ≡ length_next size }
    ensures fit { IsFitNext result }
{
    match size {
        None => on(
            None,
            Spot::Digits {
                count: 0,
                number: 0,
            },
        ),
        Some(_) => Next::Bad(DamageKind::TwoLengths),
    }
}

/// Whether the byte goes on so many bytes of the name of the length, in either case.
#[tactic(auto, unfolding(crate::specs::Heads::goes_on, crate::specs::Frames::length_name))]
fn goes_on(at: usize, byte: u8) -> bool
    ensures next { result ≡ goes_on at byte }
    ensures inside { IsTrue result → at < 14 }
{
    at < LENGTH_NAME.len() && byte.to_ascii_lowercase() == LENGTH_NAME[at]
}

#[tactic(auto, unfolding(crate::specs::Heads::name_next))]
fn after_name(size: Option<usize>, byte: u8) -> Next
    ensures next { result ≡ name_next size byte }
    ensures fit { IsFitNext result }
{
    if byte == b':' {
        return on(size, Spot::Value);
    }
    if is_name_byte(byte) {
        return on(size, Spot::Name);
    }
    Next::Bad(DamageKind::BadLine)
}

#[tactic(auto, unfolding(crate::specs::Heads::value_next))]
fn after_value(size: Option<usize>, byte: u8) -> Next
    ensures next { result ≡ value_next size byte }
    ensures fit { IsFitNext result }
{
    if byte == b'\r' {
        return on(size, Spot::LineEnd);
    }
    if is_value_byte(byte) {
        return on(size, Spot::Value);
    }
    Next::Bad(DamageKind::BadLine)
}

#[tactic(auto, unfolding(crate::specs::Heads::digits_next))]
fn after_digits(count: usize, number: usize, size: Option<usize>, byte: u8) -> Next
    requires { IsFit (Spot.Digits count number) }
    ensures next { result ≡ digits_next count number size byte }
    ensures fit { IsFitNext result }
{
    if byte.is_ascii_digit() {
        return after_figure(count, number, size, byte - b'0');
    }
    if byte == b'\r' {
        if count == 0 {
            return Next::Bad(DamageKind::BadLength);
        }
        return on(Some(number), Spot::LineEnd);
    }
    if is_blank(byte) {
        if count == 0 {
            return on(size, Spot::Digits { count, number });
        }
        return on(size, Spot::Behind(number));
    }
    after_other(byte)
}

#[tactic(auto, unfolding(crate::specs::Heads::figure_next))]
fn after_figure(count: usize, number: usize, size: Option<usize>, figure: u8) -> Next
    requires fit { IsFit (Spot.Digits count number) }
    requires figure { figure < 10 }
    ensures next { result ≡ figure_next count number size figure }
    ensures fit { IsFitNext result }
{
    if count == DIGIT_LIMIT {
        return Next::Bad(DamageKind::BadLength);
    }
    let number = 10 * number + usize::from(figure);
    if CONTENT_LIMIT < number {
        return Next::Bad(DamageKind::TooLong);
    }
    on(
        size,
        Spot::Digits {
            count: count + 1,
            number,
        },
    )
}

/// A byte that goes on no value of the length.
#[tactic(auto, unfolding(crate::specs::Heads::other_next))]
fn after_other(byte: u8) -> Next
    ensures next { result ≡ other_next byte }
    ensures fit { IsFitNext result }
{
    if is_value_byte(byte) {
        return Next::Bad(DamageKind::BadLength);
    }
    Next::Bad(DamageKind::BadLine)
}

#[tactic(auto, unfolding(crate::specs::Heads::behind_next))]
fn after_behind(number: usize, size: Option<usize>, byte: u8) -> Next
    ensures next { result ≡ behind_next number size byte }
    ensures fit { IsFitNext result }
{
    if byte == b'\r' {
        return on(Some(number), Spot::LineEnd);
    }
    if is_blank(byte) {
        return on(size, Spot::Behind(number));
    }
    after_other(byte)
}

#[tactic(auto, unfolding(crate::specs::Heads::end_next))]
fn after_end(size: Option<usize>, byte: u8) -> Next
    ensures next { result ≡ end_next size byte }
    ensures fit { IsFitNext result }
{
    if byte == b'\n' {
        return on(size, Spot::Field(0));
    }
    Next::Bad(DamageKind::BadLine)
}

#[tactic(auto, unfolding(crate::specs::Heads::closing_next))]
fn after_closing(size: usize, byte: u8) -> Next
    ensures next { result ≡ closing_next size byte }
    ensures fit { IsFitNext result }
{
    if byte == b'\n' {
        return Next::Closed(size);
    }
    Next::Bad(DamageKind::BadLine)
}

#[tactic(auto, unfolding(crate::specs::Frames::name_byte))]
fn is_name_byte(byte: u8) -> bool
    ensures { result ≡ name_byte byte }
{
    byte.is_ascii_alphanumeric() || byte == b'-'
}

#[tactic(auto, unfolding(crate::specs::Frames::value_byte))]
fn is_value_byte(byte: u8) -> bool
    ensures { result ≡ value_byte byte }
{
    b' ' <= byte && byte <= b'~' || byte == b'\t'
}

#[tactic(auto, unfolding(crate::specs::Frames::blank_byte))]
fn is_blank(byte: u8) -> bool
    ensures { result ≡ blank_byte byte }
{
    byte == b' ' || byte == b'\t'
}
